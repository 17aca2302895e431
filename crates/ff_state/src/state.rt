// The state's record and the fresh state.
ghost use Rattle.std.specs.Prelude.{◌≡◌};
ghost use Rattle.ff_state.specs.State.{fresh_state};

use d3d9_types::{D3DLIGHT9, D3DMATERIAL9, D3DMATRIX, IDENTITY, RenderStates};
use light_table::{OverflowLight, zero_light};
use sections::ALL;

// Document 01: "the state struct holds the array of overflow entries and its count". The lights from index 8 on stand in overflow_lights, by ascending index; the first overflow_count
// are used. How odd values read is said in specs/State.antt.
#[repr(C)]
#[derive(Clone, Copy)]
pub struct FfState {
    pub view: D3DMATRIX,
    pub projection: D3DMATRIX,
    pub world_palette: [D3DMATRIX; 256],
    pub world_palette_high_water: u16,
    pub texture_transforms: [D3DMATRIX; 8],
    pub material: D3DMATERIAL9,
    pub lights: [D3DLIGHT9; 8],
    pub light_enabled: u8,
    pub light_set_mask: u8,
    pub light_defined_mask: u8,
    pub light_directional_mask: u8,
    pub light_spot_mask: u8,
    pub overflow_lights: [OverflowLight; 56],
    pub overflow_count: u16,
    pub ff_vs_dirty: u8,
    pub render_states: RenderStates,
    pub tt_active_mask: u8,
}

impl FfState {
    #[tactic(auto, using(d3d9_types::proofs::Literals::zero_is, d3d9_types::proofs::Literals::one_is), unfolding(crate::specs::State::fresh_state, light_table::specs::Entry::zero_entry, d3d9_types::specs::Matrix::identity))]
    pub fn new() -> Self
        ensures { result ≡ fresh_state }
    {
        let identity = IDENTITY;
        FfState {
            view: identity,
            projection: identity,
            world_palette: [identity; 256],
            world_palette_high_water: 0,
            texture_transforms: [identity; 8],
            material: D3DMATERIAL9::default(),
            lights: [D3DLIGHT9::default(); 8],
            light_enabled: 0,
            light_set_mask: 0,
            light_defined_mask: 0,
            light_directional_mask: 0,
            light_spot_mask: 0,
            overflow_lights: [OverflowLight {
                index: 0,
                enabled: 0,
                light: zero_light(),
            }; 56],
            overflow_count: 0,
            ff_vs_dirty: ALL,
            render_states: RenderStates::default(),
            tt_active_mask: 0,
        }
    }
}
