// The calls of a list on the running things, a letter for each.
#![tactic(auto)]

mod call;
mod library;
mod line;
mod names;

pub use line::image_call;
