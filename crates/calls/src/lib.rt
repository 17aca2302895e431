// A call over a state image: 9 for what is not one, then the call's own refusals, and the image left behind.
#![tactic(auto, using(crate::proofs::Calls::image_long), unfolding(crate::specs::Answer::answered, crate::specs::Answer::length_number, crate::specs::Answer::or_next, crate::specs::Call::call_code, crate::specs::Call::changing, crate::specs::Call::reading, crate::specs::Images::ff_image_fresh, crate::specs::Images::read_state, crate::specs::Refusal::length_answer, ff_state::specs::Changed::changed, ff_state::specs::Dirty::mark_number, image::specs::Read::read_number, image::specs::Write::write_image, image::specs::Write::write_number))]

mod bits;
mod images;
mod items;
mod materials;
mod refusal;
mod render_states;

pub use bits::{mark_ff_vs_dirty, take_ff_vs_dirty};
pub use images::{image_check, image_fresh, put_state, read_state};
pub use items::{item_of, put_item};
pub use materials::{material, set_material};
pub use refusal::{Refusal, number, of_length, put_number};
pub use render_states::{
    set_ambient, set_fog_density, set_fog_end, set_fog_start, set_texture_mask,
};
