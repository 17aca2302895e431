// The host's calls over byte slices, thin over the crates below; `host_c` exports them under their C names.
#![tactic(auto)]

pub mod bits;
pub mod fills;
pub mod images;
pub mod lights;
pub mod materials;
pub mod matrices;
pub mod mirror;
pub mod render_states;
pub mod row_counts;
pub mod scalars;
pub mod transforms;
pub mod version;
