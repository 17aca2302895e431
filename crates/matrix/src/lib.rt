// Direct3D 9's 4 x 4 matrices: product, transpose, inverse, and points and directions in view space.
// No step is fused and no sum is reordered.
#![tactic(auto)]

mod inversion;
mod product;
mod transposition;
mod view;

pub use inversion::inverse;
pub use product::{mat_mul, times_row};
pub use transposition::transpose;
pub use view::{view_transform_dir, view_transform_point};
