// Packing: the rows of a section of the state under a key, into a lent slice of floats.
#![tactic(auto)]

mod answer;
mod fill;
mod lights;
mod pack;
mod write;

pub use answer::PackError;
pub use fill::{
    fill_ambient_section, fill_fog_section, fill_lights_section, fill_material_section,
    fill_palette_section, fill_proj_section, fill_tt_section, fill_wv_section,
};
pub use lights::mask_accepted;
pub use pack::pack_section;
pub use write::write_section;
