// Packed rows of matrices, of a material, of fog and of the ambient colour, written into a lent slice of floats. Only crates of this
// repository call these.
#![tactic(auto)]

mod ambient;
mod fog;
mod material;
mod palette;
mod textures;
mod write;

pub use ambient::{d3dcolor_to_rgba_f32, write_ambient};
pub use fog::write_fog;
pub use material::write_material;
pub use palette::write_palette;
pub use textures::write_textures;
pub use write::{write_matrix, write_row, write_rows};
