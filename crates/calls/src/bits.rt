// Calls on the dirty bits. A mark above 255 is refused 7.
ghost use Rattle.std.specs.Prelude.{◌≡◌, ℕ};
ghost use Rattle.calls.specs.Answer.{answer};
ghost use Rattle.calls.specs.Bits.{image_and_number, ff_mark_ff_vs_dirty, ff_take_ff_vs_dirty};
ghost use Rattle.calls.specs.Refusal.{code, value_or};

use crate::images::{put_state, read_state};
use crate::refusal::Refusal;

pub fn mark_ff_vs_dirty(image: &mut [u8], bits: u32) -> Result<(), Refusal>
    ensures { answer (code result) image.new ≡ ff_mark_ff_vs_dirty image.old bits }
{
    let s = read_state(image)?;
    put_state(image, s.mark_ff_vs_dirty(bits)?);
    Ok(())
}

// The bits that were taken.
pub fn take_ff_vs_dirty(image: &mut [u8]) -> Result<u32, Refusal>
    ensures { (out : ℕ) → answer (code result) (image_and_number image.new (value_or out result)) ≡ ff_take_ff_vs_dirty image.old out }
{
    let s = read_state(image)?;
    let taken = s.take_ff_vs_dirty();
    put_state(image, taken.state);
    Ok(taken.bits)
}
