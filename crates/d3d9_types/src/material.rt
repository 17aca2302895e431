// Materials, and the default one of document 01.
ghost use Rattle.std.specs.Prelude.{◌≡◌};
ghost use Rattle.d3d9_types.specs.Material.{default_material};

use crate::color::D3DCOLORVALUE;

#[repr(C)]
#[derive(Clone, Copy, Debug, PartialEq)]
pub struct D3DMATERIAL9 {
    pub diffuse: D3DCOLORVALUE,
    pub ambient: D3DCOLORVALUE,
    pub specular: D3DCOLORVALUE,
    pub emissive: D3DCOLORVALUE,
    pub power: f32,
}

// By hand, so that its clause names document 01's definition.
impl Default for D3DMATERIAL9 {
    ghost is_default = { λ m. m ≡ default_material };

    #[tactic(auto, using(crate::proofs::Literals::zero_is), unfolding(crate::specs::Material::default_material))]
    fn default() -> D3DMATERIAL9 {
        let black = D3DCOLORVALUE::default();
        D3DMATERIAL9 {
            diffuse: black,
            ambient: black,
            specular: black,
            emissive: black,
            power: 0.0,
        }
    }
}
