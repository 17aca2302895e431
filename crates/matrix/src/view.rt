// Light positions and directions in view space, as row vectors.
ghost use Rattle.std.specs.Prelude.{◌≡◌};
ghost use Rattle.matrix.specs.View.{view_transform_point, view_transform_dir};

use d3d9_types::{D3DMATRIX, D3DVECTOR};

// The translation row is added as it is, as the term of w = 1.
#[tactic(auto, using(crate::proofs::Entries::minus_zero), unfolding(crate::specs::View::view_transform_point, crate::specs::Entry::column, crate::specs::Entry::row, crate::specs::Sum::sum_from))]
pub fn view_transform_point(view: D3DMATRIX, p: D3DVECTOR) -> D3DVECTOR
    ensures { result ≡ view_transform_point view p }
{
    D3DVECTOR {
        x: -0.0 + p.x * view.r0.x + p.y * view.r1.x + p.z * view.r2.x + view.r3.x,
        y: -0.0 + p.x * view.r0.y + p.y * view.r1.y + p.z * view.r2.y + view.r3.y,
        z: -0.0 + p.x * view.r0.z + p.y * view.r1.z + p.z * view.r2.z + view.r3.z,
    }
}

// A direction has w = 0: no translation.
#[tactic(auto, using(crate::proofs::Entries::minus_zero), unfolding(crate::specs::View::view_transform_dir, crate::specs::Entry::column, crate::specs::Entry::row, crate::specs::Sum::sum_from))]
pub fn view_transform_dir(view: D3DMATRIX, d: D3DVECTOR) -> D3DVECTOR
    ensures { result ≡ view_transform_dir view d }
{
    D3DVECTOR {
        x: -0.0 + d.x * view.r0.x + d.y * view.r1.x + d.z * view.r2.x,
        y: -0.0 + d.x * view.r0.y + d.y * view.r1.y + d.z * view.r2.y,
        z: -0.0 + d.x * view.r0.z + d.y * view.r1.z + d.z * view.r2.z,
    }
}
