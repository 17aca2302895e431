// Every reason to refuse bytes as a state image. Document 01, 'State image'.
#![tactic(auto)]

mod reasons;
mod tests;

pub use reasons::{IMAGE_LENGTH, TAIL_LENGTH, image_refused};
