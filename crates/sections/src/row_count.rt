// The rows that a draw under a key reads. It never refuses.
ghost use Rattle.std.specs.Prelude.{◌≡◌};
ghost use Rattle.sections.specs.RowCount.{lighting_reach, texture_reach, palette_reach, ff_vs_row_count};

use crate::counts::{lights_section_rows, palette_section_rows, tt_section_rows};
use crate::key::FfVsKey;
use crate::sections::{Section, first_row};

// Past the material and, when lit, the lights.
#[tactic(auto, using(crate::proofs::Bounds::lights_most), unfolding(crate::specs::RowCount::lighting_reach))]
fn lighting_reach(key: FfVsKey) -> u16
    ensures { result ≡ lighting_reach key }
{
    if !key.lighting_enabled {
        return 11;
    }
    if key.light_active_mask != 0 {
        return first_row(Section::Lights) + lights_section_rows(key);
    }
    if key.specular_enable {
        return 15;
    }
    14
}

#[tactic(auto, using(crate::proofs::Bounds::texture_most), unfolding(crate::specs::RowCount::texture_reach))]
fn texture_reach(texture_mask: u8) -> u16
    ensures { result ≡ texture_reach texture_mask }
{
    if texture_mask == 0 {
        0
    } else {
        first_row(Section::Tt) + tt_section_rows(texture_mask)
    }
}

#[tactic(auto, using(crate::proofs::Bounds::palette_most), unfolding(crate::specs::RowCount::palette_reach))]
fn palette_reach(key: FfVsKey) -> u16
    ensures { result ≡ palette_reach key }
{
    if key.vertex_blend_count == 0 {
        0
    } else {
        first_row(Section::Palette) + palette_section_rows(key)
    }
}

#[tactic(auto, unfolding(crate::specs::RowCount::ff_vs_row_count))]
pub fn ff_vs_row_count(key: FfVsKey, texture_mask: u8) -> u16
    ensures { result ≡ ff_vs_row_count key texture_mask }
{
    if key.has_rhw {
        return 1;
    }
    lighting_reach(key)
        .max(texture_reach(texture_mask))
        .max(palette_reach(key))
}
