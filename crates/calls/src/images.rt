// State images: the fresh one, and whether one can be read.
ghost use Rattle.std.specs.Prelude.{◌≡◌, length};
ghost use Rattle.image_reasons.specs.Length.{image_length};
ghost use Rattle.image.specs.Format.{image_bytes};
ghost use Rattle.calls.specs.Answer.{answer};
ghost use Rattle.calls.specs.Images.{ff_image_fresh, ff_image_check, read_state};
ghost use Rattle.calls.specs.Refusal.{code};

use crate::refusal::Refusal;
use ff_state::FfState;
use image::{state_of, write_image};
use image_reasons::image_refused;

// The state that an image holds: what each call over one begins with. Not by `read_image`, whose answer would be copied into this one: a call took some 3 µs more.
#[inline(always)] // a call of it copied the state once more, 24 KB of stack
pub fn read_state(image: &[u8]) -> Result<FfState, Refusal>
    ensures { result ≡ read_state image.now }
{
    if image_refused(image) {
        return Err(Refusal::NotAnImage);
    }
    Ok(state_of(image))
}

// The state over an image that was read. Only crates of this repository call it, after `read_state`: the image's length was tested there, and
// nothing else is refused here.
pub fn put_state(image: &mut [u8], s: FfState)
    requires { length image.old ≡ image_length }
    ensures { image.new ≡ image_bytes s }
{
    let _ = write_image(s, image);
}

pub fn image_fresh(image: &mut [u8]) -> Result<(), Refusal>
    ensures { answer (code result) image.new ≡ ff_image_fresh image.old }
{
    Ok(write_image(FfState::new(), image)?)
}

// The tests alone: with the state read too it took 12.7 µs in place of 1.5.
pub fn image_check(image: &[u8]) -> Result<(), Refusal>
    ensures { code result ≡ ff_image_check image.now }
{
    if image_refused(image) {
        return Err(Refusal::NotAnImage);
    }
    Ok(())
}
