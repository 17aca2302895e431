// The rows of a section over a destination that is as long as they are: here stands what each section is made from. The fill of the lights by value alone takes
// the same parts itself.
ghost use Rattle.std.specs.Prelude.{◌≡◌, ◌*◌, true, length, take};
ghost use Rattle.rows.specs.Matrices.{palette_rows, texture_rows};
ghost use Rattle.rows.specs.Rows.{floats};
ghost use Rattle.sections.specs.Counts.{palette_matrices, palette_count, texture_count};
ghost use Rattle.packing.specs.Inputs.{mask_accepted, inputs_of};
ghost use Rattle.packing.specs.Pack.{state_rows, state_count};

use crate::lights::write_active_lights;
use d3d9_types::D3DMATRIX;
use ff_state::FfState;
use matrix::{mat_mul, transpose};
use rows::{write_ambient, write_fog, write_material, write_matrix, write_palette, write_textures};
use sections::{FfVsKey, Section, palette_matrices, places};

// The matrices that the key names. A function of its own, as for the texture stages: of an array that is part of what a reference lends, a proof
// does not know how long it is.
pub fn write_palette_section(
    view: D3DMATRIX,
    palette: &[D3DMATRIX; 256],
    key: FfVsKey,
    dst: &mut [f32],
)
    requires { length dst.old ≡ 4 * palette_count key }
    ensures { dst.new ≡ floats (palette_rows view (take (palette_matrices key) palette.now)) }
{
    let n = usize::from(palette_matrices(key));
    write_palette(dst, view, &palette[..n]);
}

// Those of the texture stages up to the mask's highest bit.
fn write_tt_section(textures: &[D3DMATRIX; 8], mask: u8, dst: &mut [f32])
    requires { length dst.old ≡ 4 * texture_count mask }
    ensures { dst.new ≡ floats (texture_rows mask textures.now) }
{
    let n = usize::from(places(mask));
    write_textures(dst, &textures[..n]);
}

// Only crates of this repository call it, past the tests of length and mask. A light mask of 0 packs no light. The mask is no value that the test
// makes: its type could not say of which state and key it was made, so that a clause would say it still.
pub fn write_section(section: Section, s: &FfState, key: FfVsKey, dst: &mut [f32])
    requires long { length dst.old ≡ 4 * state_count section s.now key }
    requires mask { mask_accepted section key (inputs_of s.now) ≡ true }
    ensures { dst.new ≡ state_rows section s.now key }
{
    match section {
        Section::Wv => write_matrix(dst, 0, transpose(mat_mul(s.world_palette[0], s.view))),
        Section::Proj => write_matrix(dst, 0, transpose(s.projection)),
        Section::Material => {
            write_material(dst, key.lighting_enabled, key.specular_enable, s.material)
        }
        Section::Lights if key.light_active_mask == 0 => {}
        Section::Lights => write_active_lights(s, key, dst),
        Section::Palette => write_palette_section(s.view, &s.world_palette, key, dst),
        Section::Tt => write_tt_section(&s.texture_transforms, s.tt_active_mask, dst),
        Section::Fog => write_fog(dst, key.fog_mode, s.render_states),
        Section::Ambient => write_ambient(dst, s.render_states.ambient),
    }
}
