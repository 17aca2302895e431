// The C names of `lent_transforms`, which its archive exports: each calls the function there, under the same clauses.
#![tactic(auto)]

mod transforms;

pub use transforms::{ff_state_multiply_transform, ff_state_set_transform};
