// Lights, 104 bytes. The type is a number, kept as it is.
ghost use Rattle.codec.specs.Light.{light_at, light_bytes};
ghost use Rattle.codec.specs.Sizes.{length-light_bytes};

use crate::storage::Stored;
use d3d9_types::{D3DCOLORVALUE, D3DLIGHT9, D3DVECTOR};

impl Stored for D3DLIGHT9 {
    const SIZE: usize = 104;

    ghost SIZE = { 104 };

    ghost bytes = { light_bytes };

    ghost at = { light_at };

    ghost wide = { length-light_bytes };

    #[tactic(auto, unfolding(crate::specs::Light::light_at))]
    fn read(s: &[u8], from: usize) -> D3DLIGHT9 {
        D3DLIGHT9 {
            type_: u32::read(s, from),
            diffuse: D3DCOLORVALUE::read(s, from + 4),
            specular: D3DCOLORVALUE::read(s, from + 20),
            ambient: D3DCOLORVALUE::read(s, from + 36),
            position: D3DVECTOR::read(s, from + 52),
            direction: D3DVECTOR::read(s, from + 64),
            range: f32::read(s, from + 76),
            falloff: f32::read(s, from + 80),
            attenuation0: f32::read(s, from + 84),
            attenuation1: f32::read(s, from + 88),
            attenuation2: f32::read(s, from + 92),
            theta: f32::read(s, from + 96),
            phi: f32::read(s, from + 100),
        }
    }

    #[tactic(auto, unfolding(crate::specs::Light::light_bytes))]
    fn put(self, dst: &mut [u8], from: usize) {
        self.type_.put(dst, from);
        self.diffuse.put(dst, from + 4);
        self.specular.put(dst, from + 20);
        self.ambient.put(dst, from + 36);
        self.position.put(dst, from + 52);
        self.direction.put(dst, from + 64);
        self.range.put(dst, from + 76);
        self.falloff.put(dst, from + 80);
        self.attenuation0.put(dst, from + 84);
        self.attenuation1.put(dst, from + 88);
        self.attenuation2.put(dst, from + 92);
        self.theta.put(dst, from + 96);
        self.phi.put(dst, from + 100);
    }
}
