// The material.
ghost use Rattle.std.specs.Prelude.{◌≡◌};
ghost use Rattle.ff_state.specs.Material.{set_material};

use crate::state::FfState;
use d3d9_types::D3DMATERIAL9;
use sections::MATERIAL;

impl FfState {
    #[tactic(auto, unfolding(crate::specs::Material::set_material))]
    pub fn store_material(&mut self, m: D3DMATERIAL9)
        ensures { self.new ≡ set_material self.old m }
    {
        self.material = m;
        self.mark_sections(MATERIAL);
    }

    pub fn set_material(mut self, m: D3DMATERIAL9) -> FfState
        ensures { result ≡ set_material self m }
    {
        self.store_material(m);
        self
    }

    pub fn material(self) -> D3DMATERIAL9
        ensures { result ≡ self.material }
    {
        self.material
    }
}
