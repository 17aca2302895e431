// Directions of length 1. Only crates of this repository call these.
#![tactic(auto)]

mod direction;
mod scale;

pub use direction::unit_direction;
