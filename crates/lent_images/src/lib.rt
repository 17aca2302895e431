// A state lent by reference, read from an image and written as one; `lent_images_c` exports the calls.
#![tactic(auto)]

mod images;

pub use images::{Numbered, ff_state_read_image, ff_state_write_image};
