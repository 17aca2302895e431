// Calls on fog, the ambient colour and the texture mask. They refuse 9 alone; a float is given by its bits.
// Three lines each: as `change(image, |s| s.set_ambient(color))` none proved without a file that says again what its closure sets (tried).
ghost use Rattle.std.specs.Prelude.{◌≡◌};
ghost use Rattle.calls.specs.Answer.{answer};
ghost use Rattle.calls.specs.Refusal.{code};
ghost use Rattle.calls.specs.RenderStates.{ff_set_fog_start, ff_set_fog_end, ff_set_fog_density, ff_set_ambient, ff_set_texture_mask};

use crate::images::{put_state, read_state};
use crate::refusal::Refusal;
use float32::of_bits;

pub fn set_fog_start(image: &mut [u8], bits: u32) -> Result<(), Refusal>
    ensures { answer (code result) image.new ≡ ff_set_fog_start image.old bits }
{
    let s = read_state(image)?;
    put_state(image, s.set_fog_start(of_bits(bits)));
    Ok(())
}

pub fn set_fog_end(image: &mut [u8], bits: u32) -> Result<(), Refusal>
    ensures { answer (code result) image.new ≡ ff_set_fog_end image.old bits }
{
    let s = read_state(image)?;
    put_state(image, s.set_fog_end(of_bits(bits)));
    Ok(())
}

pub fn set_fog_density(image: &mut [u8], bits: u32) -> Result<(), Refusal>
    ensures { answer (code result) image.new ≡ ff_set_fog_density image.old bits }
{
    let s = read_state(image)?;
    put_state(image, s.set_fog_density(of_bits(bits)));
    Ok(())
}

pub fn set_ambient(image: &mut [u8], color: u32) -> Result<(), Refusal>
    ensures { answer (code result) image.new ≡ ff_set_ambient image.old color }
{
    let s = read_state(image)?;
    put_state(image, s.set_ambient(color));
    Ok(())
}

pub fn set_texture_mask(image: &mut [u8], mask: u8) -> Result<(), Refusal>
    ensures { answer (code result) image.new ≡ ff_set_texture_mask image.old mask }
{
    let s = read_state(image)?;
    put_state(image, s.set_texture_mask(mask));
    Ok(())
}
