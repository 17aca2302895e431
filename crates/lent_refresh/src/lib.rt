// Refresh over a state that is lent by reference, as C calls it: the dirty bits are taken in place, and a number tells how it went.
#![tactic(auto)]

mod host;
mod mirror;

pub use host::ff_state_refresh;
pub use mirror::refresh;
