// Images. Writing is the call by value, on a copy of the state; a state that is read is stored whole.
ghost use Rattle.std.specs.Prelude.{◌≡◌};
ghost use Rattle.lent_images.specs.Calls.{ff_state_read_image, ff_state_write_image};

use calls::{Refusal, number};
use ff_state::FfState;
use image::{read_image, write_image};

// A state that a call left, beside document 01's number of the answer, for callers that hold both by value.
#[derive(Clone, Copy)]
pub struct Numbered {
    pub number: u32,
    pub state: FfState,
}

// 0, or 9 where the bytes are no image, as C reads it: the state is as it was.
#[tactic(auto, unfolding(image::specs::Read::read_number))]
pub fn ff_state_read_image(s: &mut FfState, bytes: &[u8]) -> u32
    ensures { (result, s.new) ≡ ff_state_read_image s.old bytes.now }
{
    match read_image(bytes) {
        Ok(read) => {
            *s = read;
            0
        }
        Err(e) => u32::from(Refusal::from(e)),
    }
}

// For C 0, or 4 where the bytes are not as many as an image's: they are as they were.
#[tactic(auto, unfolding(image::specs::Write::write_number))]
pub fn ff_state_write_image(s: &FfState, bytes: &mut [u8]) -> u32
    ensures { (result, bytes.new) ≡ ff_state_write_image s.now bytes.old }
{
    number(write_image(*s, bytes).map_err(Refusal::from))
}
