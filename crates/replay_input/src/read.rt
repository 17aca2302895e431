// A line read from its text.
ghost use Rattle.std.specs.Prelude.{IfSome};
ghost use Rattle.replay_input.specs.Line.{Read};

use crate::line::Line;
use replay_text::word_of;

// Each word has a space before it, and nothing else follows the letter.
pub fn read_line(text: &[u8]) -> Option<Line>
    ensures { IfSome result (Read text.now) }
{
    let (letter, rest) = text.split_first()?;
    let mut words = [0u32; 32];
    let mut count = 0;
    for part in rest.chunks(9) {
        let (space, digits) = part.split_first()?;
        if *space != b' ' {
            return None;
        }
        *words.get_mut(count)? = word_of(digits)?;
        count += 1;
    }
    Some(Line {
        letter: *letter,
        words,
        count,
    })
}
