// Document 01's arithmetic of f32, where the library leaves something open or goes about it otherwise: bit patterns with one NaN, the larger
// of two floats, the square root in the standard's steps, and the stand-in cosine. Every function is total.
#![tactic(auto)]

mod bits;
mod cosine;
mod larger;
mod remainder;
mod root;

pub use bits::{bits_of, of_bits};
pub use cosine::cos;
pub use larger::max;
pub use root::sqrt;
