// One bit of a word. Only crates of this repository call these.
#![tactic(auto)]

mod bits;

pub use bits::{has_bit, with_bit};
