// The state lent by reference: the calls of `ff_state` in place, which `lent_state_c` exports. The state
// and what a call reads lie in the host's memory as Direct3D's own structs; every answer is document 01's
// number, as C takes it, and a refused call changes nothing.
#![tactic(auto)]

mod dirty;
mod fresh;
mod material;
mod render_states;

pub use dirty::{ff_state_mark_ff_vs_dirty, ff_state_take_ff_vs_dirty};
pub use fresh::ff_state_fresh;
pub use material::ff_state_set_material;
pub use render_states::{
    ff_state_set_ambient, ff_state_set_fog_density, ff_state_set_fog_end, ff_state_set_fog_start,
    ff_state_set_texture_mask,
};
