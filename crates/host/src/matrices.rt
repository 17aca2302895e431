// Calls on matrices of 64 bytes.
ghost use Rattle.std.specs.Prelude.{◌≡◌};
ghost use Rattle.calls.specs.Answer.{answer};
ghost use Rattle.matrix_calls.specs.Matrices.{ff_mat_mul, ff_transpose, ff_inverse};

use calls::number;

pub fn ff_mat_mul(a: &[u8], b: &[u8], out: &mut [u8]) -> u32
    ensures { answer result out.new ≡ ff_mat_mul a.now b.now out.old }
{
    number(matrix_calls::mat_mul(a, b, out))
}

pub fn ff_transpose(m: &[u8], out: &mut [u8]) -> u32
    ensures { answer result out.new ≡ ff_transpose m.now out.old }
{
    number(matrix_calls::transpose(m, out))
}

pub fn ff_inverse(m: &[u8], out: &mut [u8]) -> u32
    ensures { answer result out.new ≡ ff_inverse m.now out.old }
{
    number(matrix_calls::inverse(m, out))
}
