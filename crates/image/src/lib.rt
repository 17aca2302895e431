// A state as bytes, in document 01's form.
#![tactic(auto)]

mod read;
mod write;

pub use read::{NotAnImage, read_image, state_of};
pub use write::{WrongLength, write_image};
