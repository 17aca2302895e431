// Little-endian numbers, floats and Direct3D's records in byte slices.
#![tactic(auto)]

mod color;
mod entry;
mod float;
mod light;
mod little;
mod material;
mod matrix;
mod render_states;
mod storage;
mod vector;

pub use storage::Stored;
