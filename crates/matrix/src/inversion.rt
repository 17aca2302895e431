// The inverse by cofactors, over the 2 x 2 minors of the upper two and of the lower two rows.
ghost use Rattle.std.specs.Prelude.{◌≡◌};
ghost use Rattle.matrix.specs.Cofactors.{minors_of, determinant_of, negated_row, column_of};
ghost use Rattle.matrix.specs.Inversion as Inversion;

use crate::transposition::transpose;
use d3d9_types::{D3DMATRIX, Row};

// The minors of two rows, by their columns.
#[derive(Clone, Copy)]
struct Minors {
    xy: f32,
    xz: f32,
    xw: f32,
    yz: f32,
    yw: f32,
    zw: f32,
}

#[tactic(auto, unfolding(crate::specs::Inversion::det2))]
fn det2(a: f32, b: f32, c: f32, d: f32) -> f32
    ensures { result ≡ Inversion.det2 a b c d }
{
    a * d - b * c
}

#[tactic(auto, unfolding(crate::specs::Inversion::sum3))]
fn sum3(a0: f32, x0: f32, a1: f32, x1: f32, a2: f32, x2: f32) -> f32
    ensures { result ≡ Inversion.sum3 a0 x0 a1 x1 a2 x2 }
{
    a0 * x0 + a1 * x1 + a2 * x2
}

#[tactic(auto, unfolding(crate::specs::Cofactors::minors_of))]
fn minors_of(a: Row, b: Row) -> Minors
    ensures { result ≡ minors_of a b }
{
    Minors {
        xy: det2(a.x, b.x, a.y, b.y),
        xz: det2(a.x, b.x, a.z, b.z),
        xw: det2(a.x, b.x, a.w, b.w),
        yz: det2(a.y, b.y, a.z, b.z),
        yw: det2(a.y, b.y, a.w, b.w),
        zw: det2(a.z, b.z, a.w, b.w),
    }
}

#[tactic(auto, unfolding(crate::specs::Cofactors::determinant_of))]
fn determinant(s: Minors, c: Minors) -> f32
    ensures { result ≡ determinant_of s c }
{
    sum3(s.xy, c.zw, -s.xz, c.yw, s.xw, c.yz) + sum3(s.yz, c.xw, -s.yw, c.xz, s.zw, c.xy)
}

// A column of the inverse: a row against the minors of the other pair of rows.
#[tactic(auto, unfolding(crate::specs::Cofactors::column_of))]
fn column(a: Row, n: Minors, inv_det: f32) -> Row
    ensures { result ≡ column_of a n inv_det }
{
    Row {
        x: sum3(a.y, n.zw, -a.z, n.yw, a.w, n.yz) * inv_det,
        y: sum3(-a.x, n.zw, a.z, n.xw, -a.w, n.xz) * inv_det,
        z: sum3(a.x, n.yw, -a.y, n.xw, a.w, n.xy) * inv_det,
        w: sum3(-a.x, n.yz, a.y, n.xz, -a.z, n.xy) * inv_det,
    }
}

#[tactic(auto, unfolding(crate::specs::Cofactors::negated_row))]
fn negated(a: Row) -> Row
    ensures { result ≡ negated_row a }
{
    Row {
        x: -a.x,
        y: -a.y,
        z: -a.z,
        w: -a.w,
    }
}

pub fn inverse(m: D3DMATRIX) -> Option<D3DMATRIX>
    ensures { result ≡ Inversion.inverse m }
{
    let s = minors_of(m.r0, m.r1);
    let c = minors_of(m.r2, m.r3);
    let det = determinant(s, c);
    if det == 0.0 || !det.is_finite() {
        return None;
    }
    let inv_det = 1.0 / det;
    Some(transpose(D3DMATRIX {
        r0: column(m.r1, c, inv_det),
        r1: column(negated(m.r0), c, inv_det),
        r2: column(m.r3, s, inv_det),
        r3: column(negated(m.r2), s, inv_det),
    }))
}
