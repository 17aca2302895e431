// The C names of `lent_lights`, which its archive exports: each calls the function there, under the same clauses.
#![tactic(auto)]

mod lights;

pub use lights::{
    ff_state_set_light_at, ff_state_set_light_enabled_at, ff_state_vs_source_light_inputs,
};
