// Calls on lights over a state image.
#![tactic(auto, using(calls::proofs::Calls::image_long, crate::proofs::Numbers::set_full, crate::proofs::Numbers::set_room), unfolding(ff_state::specs::Changed::changed, calls::specs::Answer::answered, calls::specs::Answer::length_number, calls::specs::Answer::or_next, calls::specs::Call::call_code, calls::specs::Call::changing, calls::specs::Call::reading, calls::specs::Images::read_state, image::specs::Read::read_number, crate::specs::Lights::light_read_light, ff_state::specs::Lights::light_number, ff_state::specs::Lights::light_read_number, crate::specs::Lights::mask_bytes, ff_state::specs::Lights::flag))]

mod lights;

pub use lights::{
    compacted_light_masks, get_light_at, is_light_defined_at, is_light_enabled_at, set_light_at,
    set_light_enabled_at, vs_source_light_inputs,
};
