// Rows become columns.
ghost use Rattle.std.specs.Prelude.{◌≡◌};
ghost use Rattle.matrix.specs.Transposition.{transposed};

use d3d9_types::{D3DMATRIX, Row};

#[tactic(auto, unfolding(crate::specs::Transposition::transposed, crate::specs::Entry::column, crate::specs::Entry::row))]
pub fn transpose(m: D3DMATRIX) -> D3DMATRIX
    ensures { result ≡ transposed m }
{
    D3DMATRIX {
        r0: Row {
            x: m.r0.x,
            y: m.r1.x,
            z: m.r2.x,
            w: m.r3.x,
        },
        r1: Row {
            x: m.r0.y,
            y: m.r1.y,
            z: m.r2.y,
            w: m.r3.y,
        },
        r2: Row {
            x: m.r0.z,
            y: m.r1.z,
            z: m.r2.z,
            w: m.r3.z,
        },
        r3: Row {
            x: m.r0.w,
            y: m.r1.w,
            z: m.r2.w,
            w: m.r3.w,
        },
    }
}
