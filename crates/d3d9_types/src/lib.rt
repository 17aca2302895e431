// Direct3D 9's records of f32 fields, its numbers, and the defaults that document 01 fixes.
#![tactic(auto)]

mod color;
mod light;
mod material;
mod matrix;
mod render_states;
mod transform;
mod vector;

pub use color::D3DCOLORVALUE;
pub use light::{D3DLIGHT_DIRECTIONAL, D3DLIGHT_POINT, D3DLIGHT_SPOT, D3DLIGHT9};
pub use material::D3DMATERIAL9;
pub use matrix::{D3DMATRIX, IDENTITY, Row, identity};
pub use render_states::RenderStates;
pub use transform::{D3DTS_PROJECTION, D3DTS_TEXTURE0, D3DTS_TEXTURE7, D3DTS_VIEW, D3DTS_WORLD};
pub use vector::D3DVECTOR;
