// The answer to a line, and its text.
ghost use Rattle.std.specs.Prelude.{◌≡◌, ◌≤◌, OnOk, Some, length};
ghost use Rattle.std.specs.Io.KnownBytes.{Appends};
ghost use Rattle.replay_text.specs.declared.answer.TheConstants.{LONGEST};
ghost use Rattle.replay_text.specs.Answer.{Within, slice, words_text, unanswered_text, line_text};

use crate::hex::Word;
use std::error::Error;
use std::fmt;
use std::io::{self, Write};

// The longest line has 16 words, each with a space or the newline after it.
pub const LONGEST: usize = 144;

// The words that a call answered.
#[derive(Clone, Copy)]
pub enum Words {
    Scalar([u32; 1]),
    Told([u32; 4]),
    Matrix([[u32; 4]; 4]),
}

impl Words {
    pub fn as_slice(&self) -> &[u32]
        ensures words { result.now ≡ slice self.now }
        ensures length { Within result.now }
    {
        match self {
            Words::Scalar(words) => words,
            Words::Told(words) => words,
            Words::Matrix(rows) => rows.as_flattened(),
        }
    }
}

impl fmt::Display for Words {
    ghost output = { λ words. Some (words_text (slice words)) };

    fn fmt<W: fmt::Write>(&self, f: &mut fmt::Formatter<W>) -> fmt::Result {
        if let Some((first, rest)) = self.as_slice().split_first() {
            let first = Word(*first);
            write!(f, "{first}")?;
            for w in rest {
                let w = Word(*w);
                write!(f, " {w}")?;
            }
        }
        Ok(())
    }
}

// Why a line has no words for an answer.
#[derive(Clone, Copy, Debug, PartialEq, Eq)]
pub enum Unanswered {
    // The number of a refusal of document 01. No plainer as `calls::Refusal`: the lines, and what is said of the library's calls, are of numbers.
    Refused(u32),
    // No such call.
    BadLine,
}

impl Error for Unanswered {}

impl fmt::Display for Unanswered {
    ghost output = { λ u. Some (unanswered_text u) };

    fn fmt<W: fmt::Write>(&self, f: &mut fmt::Formatter<W>) -> fmt::Result {
        match self {
            Unanswered::Refused(why) => write!(f, "refused {why}"),
            Unanswered::BadLine => write!(f, "bad line"),
        }
    }
}

// Writes the answer's line, with its newline.
#[tactic(auto, using(crate::proofs::answer::Lengths::length_words, crate::proofs::answer::Lengths::length_unanswered))]
pub fn write_answer<W: Write>(to: &mut W, answer: Result<Words, Unanswered>) -> io::Result<()>
    ensures text { OnOk result (Appends (W.contents to.old) (W.contents to.new) (line_text answer)) }
    ensures length { length (line_text answer) ≤ LONGEST }
{
    match answer {
        Ok(words) => {
            // Nine bytes for each word: its digits, and a space or the newline.
            let bytes = 9 * words.as_slice().len();
            prove!(bytes <= LONGEST);
            writeln!(to, "{words}")
        }
        Err(why) => writeln!(to, "{why}"),
    }
}

#[cfg(test)]
mod tests {
    use super::*;
    use std::test::Fail;

    // Lines 3, 2398, 3204 and 3969 of crates/replay/stdout, which are the Rust's answers.
    #[test]
    fn answers_are_written(rt: HostRuntime) -> Result<(), Fail> {
        let matrix = Words::Matrix([
            [0x3f80_0000, 0, 1, 0],
            [0, 0x3f80_0000, 0, 0],
            [0, 0, 0x3f80_0000, 0x7f00_0000],
            [0, 0, 1, 0x3f80_0002],
        ]);
        let told = Words::Told([0, 0x407c_f300, 0x28f3_ec77, 0x3788_7820]);
        let mut to = Vec::new(rt.alloc());
        write_answer(&mut to, Ok(Words::Scalar([0x1a35_04f3])))?;
        write_answer(&mut to, Ok(matrix))?;
        write_answer(&mut to, Err(Unanswered::Refused(6)))?;
        write_answer(&mut to, Ok(told))?;
        let lines = b"1a3504f3\n\
            3f800000 00000000 00000001 00000000 00000000 3f800000 00000000 00000000 \
            00000000 00000000 3f800000 7f000000 00000000 00000000 00000001 3f800002\n\
            refused 6\n\
            00000000 407cf300 28f3ec77 37887820\n";
        assert_eq!(rt; to.as_slice(), lines.as_slice());
        Ok(())
    }
}
