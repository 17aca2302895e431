// The dirty sections of a mirror's bytes.
ghost use Rattle.std.specs.Prelude.{◌≡◌, ℕ};
ghost use Rattle.calls.specs.Answer.{answer};
ghost use Rattle.calls.specs.Refusal.{code, value_or};
ghost use Rattle.refresh_calls.specs.Mirror.{left, ff_refresh};

use crate::written::write_section_bytes;
use calls::{Refusal, of_length, put_state, read_state};
use pack_calls::mirror_floats;
use refresh::refresh_answer;
use sections::{FfVsKey, MIRROR_FLOATS, SECTIONS};

const MIRROR_BYTES: usize = 4 * MIRROR_FLOATS;

// The bits that were taken. Document 01's order of refusals: 9, 4, 8, 5. Nothing is written before all four are passed.
pub fn refresh(image: &mut [u8], key: FfVsKey, mirror: &mut [u8]) -> Result<u32, Refusal>
    ensures { (out : ℕ) → answer (code result) (left image.new mirror.new (value_or out result)) ≡ ff_refresh image.old key mirror.old out }
{
    let s = read_state(image)?;
    of_length(mirror, MIRROR_BYTES)?;
    refresh_answer(&s, key, MIRROR_FLOATS)?;
    let taken = s.take_ff_vs_dirty();
    let mut floats = mirror_floats();
    for section in &SECTIONS {
        write_section_bytes(*section, taken.bits, &s, key, &mut floats, mirror);
    }
    put_state(image, taken.state);
    Ok(taken.bits)
}
