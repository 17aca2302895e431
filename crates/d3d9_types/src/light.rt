// Lights, their types, and the default one of document 01.
ghost use Rattle.std.specs.Prelude.{◌≡◌};
ghost use Rattle.d3d9_types.specs.Light.{default_light};

use crate::color::D3DCOLORVALUE;
use crate::vector::D3DVECTOR;

// D3DLIGHTTYPE
pub const D3DLIGHT_POINT: u32 = 1;

pub const D3DLIGHT_SPOT: u32 = 2;

pub const D3DLIGHT_DIRECTIONAL: u32 = 3;

// The type is a number, kept as it is: C's record holds any u32, and any other than the three lights nothing.
#[repr(C)]
#[derive(Clone, Copy, Debug, PartialEq)]
pub struct D3DLIGHT9 {
    pub type_: u32,
    pub diffuse: D3DCOLORVALUE,
    pub specular: D3DCOLORVALUE,
    pub ambient: D3DCOLORVALUE,
    pub position: D3DVECTOR,
    pub direction: D3DVECTOR,
    pub range: f32,
    pub falloff: f32,
    pub attenuation0: f32,
    pub attenuation1: f32,
    pub attenuation2: f32,
    pub theta: f32,
    pub phi: f32,
}

impl Default for D3DLIGHT9 {
    ghost is_default = { λ l. l ≡ default_light };

    #[tactic(auto, using(crate::proofs::Literals::zero_is, crate::proofs::Literals::one_is), unfolding(crate::specs::Light::default_light))]
    fn default() -> D3DLIGHT9 {
        D3DLIGHT9 {
            type_: D3DLIGHT_DIRECTIONAL,
            diffuse: D3DCOLORVALUE {
                r: 1.0,
                g: 1.0,
                b: 1.0,
                a: 0.0,
            },
            specular: D3DCOLORVALUE::default(),
            ambient: D3DCOLORVALUE::default(),
            position: D3DVECTOR::default(),
            direction: D3DVECTOR {
                x: 0.0,
                y: 0.0,
                z: 1.0,
            },
            range: 0.0,
            falloff: 0.0,
            attenuation0: 0.0,
            attenuation1: 0.0,
            attenuation2: 0.0,
            theta: 0.0,
            phi: 0.0,
        }
    }
}
