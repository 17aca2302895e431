// Refresh over a state image: the dirty sections of a mirror's bytes.
#![tactic(auto, using(calls::proofs::Calls::image_long), unfolding(calls::specs::Answer::answered, calls::specs::Answer::length_number, calls::specs::Answer::or_next, calls::specs::Call::call_code, calls::specs::Call::changing, calls::specs::Call::reading, calls::specs::Images::read_state, calls::specs::Refusal::length_answer, image::specs::Read::read_number))]

mod mirror;
mod written;

pub use mirror::refresh;
