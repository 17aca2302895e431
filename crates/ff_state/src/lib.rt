// The vertex state of Direct3D 9's fixed-function pipeline: transforms, material, lights, fog, ambient colour,
// texture mask and the dirty bits of the constant sections. What changes it is a call in place; by value a call
// takes the state and returns the changed one. A refused call leaves the state as it was.
#![tactic(auto)]

mod dirty;
mod lights;
mod material;
mod render_states;
mod state;
mod transforms;

pub use dirty::{Taken, UnknownBits};
pub use lights::TableFull;
pub use state::FfState;
pub use transforms::{Place, UnknownState, slot_of};
