// The transforms of a state lent by reference, stored in place; `lent_transforms_c` exports them.
#![tactic(auto, unfolding(ff_state::specs::Transforms::transform_number))]

mod transforms;

pub use transforms::{ff_state_multiply_transform, ff_state_set_transform};
