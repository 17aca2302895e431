// The sections of the constant buffer: their bits, where each begins, and how many rows it has under a shader key.
#![tactic(auto)]

mod counts;
mod key;
mod row_count;
mod sections;

pub use counts::{material_section_rows, palette_matrices, places, section_rows};
pub use key::{FfVsKey, light_limit};
pub use row_count::ff_vs_row_count;
pub use sections::{
    ALL, AMBIENT, FOG, LIGHTS, MATERIAL, MIRROR_FLOATS, PALETTE, PROJ, SECTIONS, Section, TT,
    UnknownSection, WV, first_row,
};
