// Refresh: the dirty sections of a state, packed into a mirror of the constant buffer.
#![tactic(auto)]

mod answer;
mod mirror;
mod written;

pub use answer::{RefreshError, refresh_answer};
pub use mirror::{refresh, refresh_in_place};
pub use written::has_section;
