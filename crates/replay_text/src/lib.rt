// Words as text, and the lines that answer calls.
#![tactic(auto)]

mod answer;
mod hex;
mod room;
mod words;

pub use answer::{LONGEST, Unanswered, Words, write_answer};
pub use hex::word_of;
pub use room::{HELD, hold_answer, write_held};
pub use words::exactly;
