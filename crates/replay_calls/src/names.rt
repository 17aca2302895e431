// What the words of a line name.
ghost use Rattle.std.specs.Prelude.{◌≡◌, Ok, Err, cond, leb};
ghost use Rattle.replay_text.specs.declared.answer.Unanswered.TheVariants.{BadLine};
ghost use Rattle.replay_calls.specs.Made.{key_of, section_of};

use replay_text::Unanswered;
use sections::{FfVsKey, Section};

// The eight bytes are the key's numbers, in the order of `pack_calls::key_of`.
pub fn key_of(b: &[u8; 8]) -> FfVsKey
    ensures { result ≡ key_of b.now }
{
    pack_calls::key_of(b[0], b[1], b[2], b[3], b[4], b[5], b[6], b[7])
}

// How many bytes of a place are lent, if it has as many.
pub fn within(len: u32, room: usize) -> Result<usize, Unanswered>
    ensures { result ≡ cond (leb len room) (Ok len) (Err BadLine) }
{
    let len = len as usize;
    if room < len {
        return Err(Unanswered::BadLine);
    }
    Ok(len)
}

// The section of a dirty bit. No `From` of its error, for `?`: both types are other crates'.
pub fn section_of(bit: u32) -> Result<Section, Unanswered>
    ensures { result ≡ section_of bit }
{
    Section::try_from(bit).map_err(|_| Unanswered::BadLine)
}
