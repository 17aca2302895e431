// Where a turn packs, and what it counts.
ghost use Rattle.std.specs.Prelude.{◌<◌};

use packing::PackError;

// The place of a turn: sixteen in turn, so that no fill's floats are overwritten unread.
pub fn place(i: u32) -> usize
    ensures { result < 16 }
{
    (i % 16) as usize
}

pub fn one_if_packed(answer: Result<(), PackError>) -> u32 {
    u32::from(answer.is_ok())
}
