// The C names of `lent_images`, which its archive exports: each calls the function there, under the same clauses.
#![tactic(auto)]

mod images;

pub use images::{ff_state_read_image, ff_state_write_image};
