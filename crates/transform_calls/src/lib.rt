// Calls on transforms over a state image.
#![tactic(auto, using(calls::proofs::Calls::image_long), unfolding(ff_state::specs::Changed::changed, calls::specs::Answer::answered, calls::specs::Answer::length_number, calls::specs::Answer::or_next, calls::specs::Call::call_code, calls::specs::Call::changing, calls::specs::Call::reading, calls::specs::Images::read_state, image::specs::Read::read_number, ff_state::specs::Transforms::set_transform, ff_state::specs::Transforms::multiply_transform, ff_state::specs::Transforms::change_at, ff_state::specs::Transforms::transform_number, ff_state::specs::Transforms::transform_of, ff_state::specs::Transforms::read_at, ff_state::specs::Transforms::transform_read_number, ff_state::specs::Transforms::transform_read_matrix))]

mod transforms;

pub use transforms::{
    multiply_transform, set_transform, transform, world_palette_used, world_view_projection,
};
