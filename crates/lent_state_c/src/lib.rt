// The C names of `lent_state`, which its archive exports: each calls the function there, under the same clauses.
#![tactic(auto)]

mod dirty;
mod fresh;
mod material;
mod render_states;

pub use dirty::{ff_state_mark_ff_vs_dirty, ff_state_take_ff_vs_dirty};
pub use fresh::ff_state_fresh;
pub use material::ff_state_set_material;
pub use render_states::{
    ff_state_set_ambient, ff_state_set_fog_density, ff_state_set_fog_end, ff_state_set_fog_start,
    ff_state_set_texture_mask,
};
