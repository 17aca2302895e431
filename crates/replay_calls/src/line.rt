// What a line does to the machine.
ghost use Rattle.std.specs.Prelude.{◌≡◌};
ghost use Rattle.replay_images.specs.Machine.{done};
ghost use Rattle.replay_calls.specs.Made.{image_call, line_made};

use crate::call::Line;
use crate::library::make;
use replay_images::Machine;
use replay_text::{Unanswered, Words, exactly};

// Does what the letter asks with the words.
pub fn image_call(letter: u8, words: &[u32], machine: &mut Machine) -> Result<Words, Unanswered>
    ensures { done result machine.new ≡ image_call letter words.now machine.old }
{
    let number = number_of(Line::try_from(letter)?, words, machine)?;
    Ok(machine.told(number))
}

// Answers the number that a call was lent: 0 where none.
fn number_of(line: Line, words: &[u32], machine: &mut Machine) -> Result<u32, Unanswered>
    ensures { done result machine.new ≡ line_made line words.now machine.old }
{
    match line {
        Line::PutItem => {
            machine.put_item(&exactly(words)?);
            Ok(0)
        }
        Line::PutImage => {
            let [at, b] = exactly::<2>(words)?;
            machine.put_image(at, b)?;
            Ok(0)
        }
        Line::PutKey => {
            let [low, high] = exactly::<2>(words)?;
            machine.put_key(low, high);
            Ok(0)
        }
        Line::PutMirror => {
            let [at, w] = exactly::<2>(words)?;
            machine.put_mirror(at, w)?;
            Ok(0)
        }
        Line::Call(call) => {
            let [a, b] = exactly::<2>(words)?;
            let Machine {
                image,
                item,
                key,
                mirror,
            } = machine;
            make(call, a, b, image, item, key, mirror)
        }
    }
}
