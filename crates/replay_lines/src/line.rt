// One line: its call made.
ghost use Rattle.std.specs.Prelude.{IfOk};
ghost use Rattle.replay_text.specs.Answer.{Within, slice};

use replay_images::Machine;
use replay_input::read_line;
use replay_text::{Unanswered, Words};

// Makes the line's call: arithmetic has a small letter.
pub fn answer(text: &[u8], machine: &mut Machine) -> Result<Words, Unanswered>
    ensures { IfOk result (λ words. Within (slice words)) }
{
    let line = read_line(text).ok_or(Unanswered::BadLine)?;
    let words = line.words();
    if line.letter.is_ascii_lowercase() {
        return replay_ops::call(line.letter, words);
    }
    replay_calls::image_call(line.letter, words, machine)
}
