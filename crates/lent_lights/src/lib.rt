// The lights of a state lent by reference; `lent_lights_c` exports the calls.
#![tactic(auto, unfolding(ff_state::specs::Lights::light_number))]

mod lights;

pub use lights::{
    ff_state_set_light_at, ff_state_set_light_enabled_at, ff_state_vs_source_light_inputs,
};
