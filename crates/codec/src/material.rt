// Materials, 68 bytes.
ghost use Rattle.codec.specs.Material.{material_at, material_bytes};
ghost use Rattle.codec.specs.Sizes.{length-material_bytes};

use crate::storage::Stored;
use d3d9_types::{D3DCOLORVALUE, D3DMATERIAL9};

impl Stored for D3DMATERIAL9 {
    const SIZE: usize = 68;

    ghost SIZE = { 68 };

    ghost bytes = { material_bytes };

    ghost at = { material_at };

    ghost wide = { length-material_bytes };

    #[tactic(auto, unfolding(crate::specs::Material::material_at))]
    fn read(s: &[u8], from: usize) -> D3DMATERIAL9 {
        D3DMATERIAL9 {
            diffuse: D3DCOLORVALUE::read(s, from),
            ambient: D3DCOLORVALUE::read(s, from + 16),
            specular: D3DCOLORVALUE::read(s, from + 32),
            emissive: D3DCOLORVALUE::read(s, from + 48),
            power: f32::read(s, from + 64),
        }
    }

    #[tactic(auto, unfolding(crate::specs::Material::material_bytes))]
    fn put(self, dst: &mut [u8], from: usize) {
        self.diffuse.put(dst, from);
        self.ambient.put(dst, from + 16);
        self.specular.put(dst, from + 32);
        self.emissive.put(dst, from + 48);
        self.power.put(dst, from + 64);
    }
}
