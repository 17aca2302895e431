// Row-major products.
ghost use Rattle.std.specs.Prelude.{◌≡◌};
ghost use Rattle.matrix.specs.Product.{mat_mul, times_row};

use d3d9_types::{D3DMATRIX, Row};

// The row vector `a` times `m`.
#[tactic(auto, using(crate::proofs::Entries::minus_zero), unfolding(crate::specs::Product::times_row, crate::specs::Product::dot, crate::specs::Entry::column, crate::specs::Entry::row, crate::specs::Sum::sum_from))]
pub fn times_row(a: Row, m: D3DMATRIX) -> Row
    ensures { result ≡ times_row a m }
{
    Row {
        x: -0.0 + a.x * m.r0.x + a.y * m.r1.x + a.z * m.r2.x + a.w * m.r3.x,
        y: -0.0 + a.x * m.r0.y + a.y * m.r1.y + a.z * m.r2.y + a.w * m.r3.y,
        z: -0.0 + a.x * m.r0.z + a.y * m.r1.z + a.z * m.r2.z + a.w * m.r3.z,
        w: -0.0 + a.x * m.r0.w + a.y * m.r1.w + a.z * m.r2.w + a.w * m.r3.w,
    }
}

// The product a * b.
#[tactic(auto, unfolding(crate::specs::Product::mat_mul, crate::specs::Product::times_row, crate::specs::Entry::row))]
pub fn mat_mul(a: D3DMATRIX, b: D3DMATRIX) -> D3DMATRIX
    ensures { result ≡ mat_mul a b }
{
    D3DMATRIX {
        r0: times_row(a.r0, b),
        r1: times_row(a.r1, b),
        r2: times_row(a.r2, b),
        r3: times_row(a.r3, b),
    }
}
