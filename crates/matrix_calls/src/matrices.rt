// Calls on matrices of 64 bytes. A slice of another length is refused 4, and a refused call writes nothing.
// The lengths are tested before a matrix is read: a matrix that `item_of` answers is copied once more, and a product that has no place is made for nothing.
ghost use Rattle.std.specs.Prelude.{◌≡◌};
ghost use Rattle.calls.specs.Answer.{answer};
ghost use Rattle.calls.specs.Refusal.{code};
ghost use Rattle.matrix_calls.specs.Matrices.{ff_mat_mul, ff_transpose, ff_inverse};

use calls::{Refusal, of_length, put_item};
use codec::Stored;
use d3d9_types::D3DMATRIX;

pub fn mat_mul(a: &[u8], b: &[u8], out: &mut [u8]) -> Result<(), Refusal>
    ensures { answer (code result) out.new ≡ ff_mat_mul a.now b.now out.old }
{
    of_length(a, D3DMATRIX::SIZE)?;
    of_length(b, D3DMATRIX::SIZE)?;
    of_length(out, D3DMATRIX::SIZE)?;
    put_item(
        matrix::mat_mul(D3DMATRIX::read(a, 0), D3DMATRIX::read(b, 0)),
        out,
    )
}

pub fn transpose(m: &[u8], out: &mut [u8]) -> Result<(), Refusal>
    ensures { answer (code result) out.new ≡ ff_transpose m.now out.old }
{
    of_length(m, D3DMATRIX::SIZE)?;
    of_length(out, D3DMATRIX::SIZE)?;
    put_item(matrix::transpose(D3DMATRIX::read(m, 0)), out)
}

pub fn inverse(m: &[u8], out: &mut [u8]) -> Result<(), Refusal>
    ensures { answer (code result) out.new ≡ ff_inverse m.now out.old }
{
    of_length(m, D3DMATRIX::SIZE)?;
    of_length(out, D3DMATRIX::SIZE)?; // 4 goes before 6
    let Some(i) = matrix::inverse(D3DMATRIX::read(m, 0)) else {
        return Err(Refusal::Singular);
    };
    put_item(i, out)
}
