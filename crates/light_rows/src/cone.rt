// The cone of a spot light as a scale and an offset: the shader multiplies and adds once. The kind is the number of C's record.
ghost use Rattle.std.specs.Prelude.{◌≡◌};
ghost use Rattle.light_rows.specs.Cone.{cone_of};

use crate::floor::floored;
use d3d9_types::D3DLIGHT_SPOT;
use float32::cos;

#[derive(Clone, Copy, Default)]
pub struct Cone {
    pub scale: f32,
    pub offset: f32,
}

#[tactic(auto, using(crate::proofs::Literals::half_is, d3d9_types::proofs::Literals::zero_is, d3d9_types::proofs::Literals::one_is), unfolding(crate::specs::Cone::cone_of, crate::specs::Cone::spot_scale, crate::specs::Cone::half_cosine))]
pub fn cone_of(kind: u32, theta: f32, phi: f32) -> Cone
    ensures { result ≡ cone_of kind theta phi }
{
    if kind == D3DLIGHT_SPOT {
        let ct = cos(theta * 0.5);
        let cp = cos(phi * 0.5);
        let scale = 1.0 / floored(ct - cp);
        return Cone {
            scale,
            offset: -cp * scale,
        };
    }
    Cone::default()
}
