// Matrices, lights and overflow entries one after another in bytes, read and written, and the masks that follow from the lights.
// Document 01, 'State image'.
#![tactic(auto)]

mod masks;
mod read;
mod write;

pub use masks::{set_mask, type_mask};
pub use read::list_at;
pub use write::put_list;
