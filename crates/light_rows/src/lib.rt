// Packed rows of lights, in view space. Only crates of this repository call these.
#![tactic(auto)]

mod cone;
mod floor;
mod light;

pub use light::write_lights;
