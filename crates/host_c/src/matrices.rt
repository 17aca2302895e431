// Calls on matrices of 64 bytes.
ghost use Rattle.std.specs.Prelude.{◌≡◌};
ghost use Rattle.calls.specs.Answer.{answer};
ghost use Rattle.matrix_calls.specs.Matrices.{ff_mat_mul, ff_transpose, ff_inverse};

#[unsafe(no_mangle)]
pub extern "C" fn ff_mat_mul(a: &[u8], b: &[u8], out: &mut [u8]) -> u32
    ensures { answer result out.new ≡ ff_mat_mul a.now b.now out.old }
{
    host::matrices::ff_mat_mul(a, b, out)
}

#[unsafe(no_mangle)]
pub extern "C" fn ff_transpose(m: &[u8], out: &mut [u8]) -> u32
    ensures { answer result out.new ≡ ff_transpose m.now out.old }
{
    host::matrices::ff_transpose(m, out)
}

#[unsafe(no_mangle)]
pub extern "C" fn ff_inverse(m: &[u8], out: &mut [u8]) -> u32
    ensures { answer result out.new ≡ ff_inverse m.now out.old }
{
    host::matrices::ff_inverse(m, out)
}
