// Products, transposes and inverses over the bytes of matrices.
#![tactic(auto, unfolding(calls::specs::Answer::answered, calls::specs::Answer::length_number, calls::specs::Answer::or_next, calls::specs::Refusal::length_answer, crate::specs::Matrices::ff_mat_mul, crate::specs::Matrices::ff_transpose, crate::specs::Matrices::ff_inverse, matrix::specs::Inversion::inverse_number, matrix::specs::Inversion::inverse_matrix))]

mod matrices;

pub use matrices::{inverse, mat_mul, transpose};
