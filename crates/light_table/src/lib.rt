// The table of lights from index 8 on and lists of active lights: what the state's calls on lights are
// made of. Only crates of this repository call these.
#![tactic(auto)]

mod active;
mod entry;
mod kinds;
mod overflow;

pub use active::{ActiveLights, LightMasks, active_lights, four_bytes, low_bits, masks_of};
pub use entry::{OverflowLight, zero_light};
pub use kinds::light_type_contributes;
pub use overflow::{find, insert_at, used_count};
