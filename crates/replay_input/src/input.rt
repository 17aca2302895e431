// What a reader gives, a line at a time.
ghost use Rattle.std.specs.Prelude.{◌≤◌, OnOk};
ghost use Rattle.arrayvec.specs.ArrayVec.{array_vec_len};

use arrayvec::ArrayVec;
use std::io::{Read, Result};

// More than the longest line that is a call has.
pub const KEPT: usize = 1024;

// A block of what was read: the bytes from `at` up to `end` are not taken yet. Not std's `BufReader`, whose block lies on the heap, where there may be
// no room for it.
#[derive(Clone, Copy)]
pub struct Input {
    block: [u8; 4096],
    at: usize,
    end: usize,
    ghost within: { (at ≤ end) × (end ≤ 4096) },
}

impl Input {
    // Nothing is read yet.
    pub fn new() -> Input {
        Input {
            block: [0; 4096],
            at: 0,
            end: 0,
        }
    }

    // The next byte, from the block or after one read into it: none at the end of the input.
    fn next_byte<R: Read>(&mut self, reader: &mut R) -> Result<Option<u8>> {
        if self.at == self.end {
            self.at = 0;
            self.end = 0;
            self.end = reader.read(&mut self.block)?;
        }
        if self.at == self.end {
            return Ok(None);
        }
        let b = self.block[self.at];
        self.at += 1;
        Ok(Some(b))
    }
}

// Puts the next line, without its newline, into `line`, and answers whether it had one. Past KEPT
// bytes they are dropped: no line of KEPT is a call. A loop has to end, and nothing says that the
// input does: so the turns are counted, up to a number that no run reaches.
pub fn next_line<R: Read>(
    reader: &mut R,
    input: &mut Input,
    line: &mut ArrayVec<u8, KEPT>,
) -> Result<bool>
    ensures { OnOk result (array_vec_len line.new ≤ 1024) }
{
    line.clear();
    for _ in 0..u64::MAX {
        let Some(b) = input.next_byte(reader)? else {
            return Ok(false);
        };
        if b == b'\n' {
            return Ok(true);
        }
        if line.len() < KEPT {
            line.push(b);
        }
    }
    Ok(false)
}
