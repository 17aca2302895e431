// Images. Writing is the call by value, on a copy of the state; a state that is read is stored whole.
ghost use Rattle.std.specs.Prelude.{◌≡◌};
ghost use Rattle.lent_images.specs.Calls.{ff_state_read_image, ff_state_write_image};

use ff_state::FfState;

// 0, or 9 where the bytes are no image: the state is as it was.
#[unsafe(no_mangle)]
pub extern "C" fn ff_state_read_image(s: &mut FfState, bytes: &[u8]) -> u32
    ensures { (result, s.new) ≡ ff_state_read_image s.old bytes.now }
{
    lent_images::ff_state_read_image(s, bytes)
}

// 0, or 4 where the bytes are not as many as an image's: they are as they were.
#[unsafe(no_mangle)]
pub extern "C" fn ff_state_write_image(s: &FfState, bytes: &mut [u8]) -> u32
    ensures { (result, bytes.new) ≡ ff_state_write_image s.now bytes.old }
{
    lent_images::ff_state_write_image(s, bytes)
}
