// The C names of `host`, which its archive exports: each calls the function there, under the same clauses.
#![tactic(auto)]

mod bits;
mod fills;
mod images;
mod lights;
mod materials;
mod matrices;
mod mirror;
mod render_states;
mod row_counts;
mod scalars;
mod transforms;
mod version;

pub use bits::{ff_mark_ff_vs_dirty, ff_take_ff_vs_dirty};
pub use fills::{
    ff_fill_ambient_section, ff_fill_fog_section, ff_fill_lights_section, ff_fill_material_section,
    ff_fill_palette_section, ff_fill_proj_section, ff_fill_tt_section, ff_fill_wv_section,
};
pub use images::{ff_image_check, ff_image_fresh};
pub use lights::{
    ff_compacted_light_masks, ff_get_light_at, ff_is_light_defined_at, ff_is_light_enabled_at,
    ff_set_light_at, ff_set_light_enabled_at, ff_vs_source_light_inputs,
};
pub use materials::{ff_material, ff_set_material};
pub use matrices::{ff_inverse, ff_mat_mul, ff_transpose};
pub use mirror::ff_refresh;
pub use render_states::{
    ff_set_ambient, ff_set_fog_density, ff_set_fog_end, ff_set_fog_start, ff_set_texture_mask,
};
pub use row_counts::{
    ff_ambient_section_rows, ff_fog_section_rows, ff_lights_section_rows, ff_material_section_rows,
    ff_palette_section_rows, ff_proj_section_rows, ff_tt_section_rows, ff_vs_row_count,
    ff_wv_section_rows,
};
pub use scalars::{ff_cos, ff_sqrt};
pub use transforms::{
    ff_multiply_transform, ff_set_transform, ff_transform, ff_world_palette_used,
    ff_world_view_projection,
};
pub use version::ff_state_version;
