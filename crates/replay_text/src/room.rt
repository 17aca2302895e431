// Answers held back, so that a writer is handed many at a time.
ghost use Rattle.std.specs.Prelude.{◌≡◌, ◌+◌, ◌≤◌, [], OnOk, length};
ghost use Rattle.std.specs.Io.KnownBytes.{Appends};
ghost use Rattle.replay_text.specs.declared.answer.TheConstants.{LONGEST};
ghost use Rattle.replay_text.specs.Answer.{line_text};
ghost use Rattle.replay_text.specs.Room.{Held};

use crate::answer::{LONGEST, Unanswered, Words, write_answer};
use arrayvec::ArrayVec;
use std::io::{self, Write};

// So many bytes are held back at most. Not by std's `BufWriter`, which keeps them on the heap, where there may be no room for them, and writes them
// where a read failed, too.
pub const HELD: usize = 65_536;

// Puts the answer's line behind what is held, which is written first where a line might find no room.
pub fn hold_answer<W: Write>(
    to: &mut W,
    held: &mut ArrayVec<u8, HELD>,
    answer: Result<Words, Unanswered>,
) -> io::Result<()>
    ensures text { OnOk result (Held (W.contents to.old) held.old.items (W.contents to.new) held.new.items (line_text answer)) }
    ensures room { OnOk result (length held.new.items ≤ length held.old.items + LONGEST) }
{
    if held.remaining_capacity() < LONGEST {
        write_held(to, held)?;
    }
    prove!(LONGEST <= held.remaining_capacity());
    write_answer(held, answer)
}

// Writes what is held.
pub fn write_held<W: Write>(to: &mut W, held: &mut ArrayVec<u8, HELD>) -> io::Result<()>
    ensures written { OnOk result (Appends (W.contents to.old) (W.contents to.new) held.old.items) }
    ensures none_left { OnOk result (held.new.items ≡ []) }
{
    to.write_all(held.as_slice())?;
    held.clear();
    Ok(())
}
