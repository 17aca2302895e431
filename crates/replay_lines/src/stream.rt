// What a reader gives, line by line, to a writer.
use crate::line::answer;
use arrayvec::ArrayVec;
use replay_images::Machine;
use replay_input::{Input, KEPT, next_line};
use replay_text::{HELD, Unanswered, hold_answer, write_held};
use std::io::{Read, Result, Write};

// A loop has to end, and nothing says that the input does: so the turns are counted, up to a number
// that no run reaches.
pub fn replay<R: Read, W: Write>(from: &mut R, to: &mut W) -> Result<()> {
    let mut machine = Machine::new();
    let mut input = Input::new();
    let mut line = ArrayVec::<u8, KEPT>::new();
    let mut held = ArrayVec::<u8, HELD>::new();
    for _ in 0..u64::MAX {
        if !next_line(from, &mut input, &mut line)? {
            break;
        }
        hold_answer(to, &mut held, answer(line.as_slice(), &mut machine))?;
    }
    // A last line with no newline is no call.
    if !line.is_empty() {
        hold_answer(to, &mut held, Err(Unanswered::BadLine))?;
    }
    write_held(to, &mut held)?;
    to.flush()
}
