// The lines that a reader gives, each read as a letter and words.
#![tactic(auto)]

mod input;
mod line;
mod read;

pub use input::{Input, KEPT, next_line};
pub use line::Line;
pub use read::read_line;
