// A row, rows one behind the other, and the four rows of a matrix, written from a place on.
ghost use Rattle.std.specs.Prelude.{◌≡◌, ◌+◌, ◌*◌, ◌≤◌, length};
ghost use Rattle.std.proofs.lemmas.List.Edits.{sets};
ghost use Rattle.rows.specs.Rows.{row_floats, floats};
ghost use Rattle.rows.specs.Matrices.{matrix_rows};

use d3d9_types::{D3DMATRIX, Row};

#[tactic(auto, using(crate::proofs::Stores::sets_four))]
pub fn write_row(dst: &mut [f32], at: usize, r: Row)
    requires { at + 4 ≤ length dst.old }
    ensures { dst.new ≡ sets dst.old at (row_floats r) }
{
    dst[at] = r.x;
    dst[at + 1] = r.y;
    dst[at + 2] = r.z;
    dst[at + 3] = r.w;
}

// The matrices of the palette, those of the texture stages, and the lights are each written by a loop of their own: one function over a closure
// would promise no equation, but one for each function that the closure may compute.
pub fn write_rows(dst: &mut [f32], at: usize, rows: &[Row])
    requires { at + 4 * length rows.now ≤ length dst.old }
    ensures { dst.new ≡ sets dst.old at (floats rows.now) }
{
    for (i, row) in rows.iter().enumerate() {
        write_row(dst, at + 4 * i, *row);
    }
}

pub fn write_matrix(dst: &mut [f32], at: usize, m: D3DMATRIX)
    requires { at + 16 ≤ length dst.old }
    ensures { dst.new ≡ sets dst.old at (floats (matrix_rows m)) }
{
    write_rows(dst, at, &[m.r0, m.r1, m.r2, m.r3]);
}
