// The state's calls on lights, in place and by value: eight slots with their masks, the table from index 8 on,
// and the active lights. A refused call returns the refusal, and the state is as it was.
#![tactic(auto)]

mod active;
mod lights;
mod slots;

pub use active::{
    active_of, compacted_light_masks, light_active_mask, resolve_active_lights,
    vs_source_light_inputs,
};
pub use lights::{
    enable_light_at, get_light_at, has_room, is_light_defined_at, is_light_enabled_at, search,
    set_light_at, set_light_enabled_at, store_light_at,
};
