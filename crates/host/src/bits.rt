// The dirty bits.
ghost use Rattle.std.specs.Prelude.{◌≡◌};
ghost use Rattle.calls.specs.Answer.{answer};
ghost use Rattle.calls.specs.Bits.{image_and_number, ff_mark_ff_vs_dirty, ff_take_ff_vs_dirty};

use calls::{number, put_number};

pub fn ff_mark_ff_vs_dirty(image: &mut [u8], bits: u32) -> u32
    ensures { answer result image.new ≡ ff_mark_ff_vs_dirty image.old bits }
{
    number(calls::mark_ff_vs_dirty(image, bits))
}

pub fn ff_take_ff_vs_dirty(image: &mut [u8], out: &mut u32) -> u32
    ensures { answer result (image_and_number image.new out.new) ≡ ff_take_ff_vs_dirty image.old out.old }
{
    put_number(calls::take_ff_vs_dirty(image), out)
}
