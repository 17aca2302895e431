// How many rows each section has. None of these looks at HAS_RHW, and the lights' not at LIGHTING_ENABLED.
ghost use Rattle.std.specs.Prelude.{◌≡◌};
ghost use Rattle.sections.specs.Counts as Counts;
ghost use Rattle.sections.specs.Counts.{material_count, light_count, palette_matrices, palette_count, texture_count, section_rows};

use crate::key::FfVsKey;
use crate::sections::Section;

// The places of a mask up to its highest bit.
#[tactic(auto, unfolding(crate::specs::Counts::places))]
pub fn places(mask: u8) -> u16
    ensures { result ≡ Counts.places mask }
{
    (8 - mask.leading_zeros()) as u16
}

#[tactic(auto, unfolding(crate::specs::Counts::material_count))]
pub fn material_section_rows(key: FfVsKey) -> u16
    ensures { result ≡ material_count key }
{
    match (key.lighting_enabled, key.specular_enable) {
        (false, _) => 1,
        (true, false) => 4,
        (true, true) => 5,
    }
}

#[tactic(auto, using(crate::proofs::Bounds::places_most), unfolding(crate::specs::Counts::light_count))]
pub fn lights_section_rows(key: FfVsKey) -> u16
    ensures { result ≡ light_count key }
{
    places(key.light_active_mask) * 6
}

// Indexed blending reads any matrix up to the last that an index reaches.
#[tactic(auto, unfolding(crate::specs::Counts::palette_matrices))]
pub fn palette_matrices(key: FfVsKey) -> u16
    ensures { result ≡ palette_matrices key }
{
    match u16::from(key.vertex_blend_count) {
        0 => 0,
        _ if key.vertex_blend_indexed => 40,
        count => count,
    }
}

#[tactic(auto, using(crate::proofs::Bounds::matrices_most), unfolding(crate::specs::Counts::palette_count))]
pub fn palette_section_rows(key: FfVsKey) -> u16
    ensures { result ≡ palette_count key }
{
    palette_matrices(key) * 4
}

#[tactic(auto, using(crate::proofs::Bounds::places_most), unfolding(crate::specs::Counts::texture_count))]
pub fn tt_section_rows(texture_mask: u8) -> u16
    ensures { result ≡ texture_count texture_mask }
{
    places(texture_mask) * 4
}

// The rows of a section by its name.
pub fn section_rows(section: Section, key: FfVsKey, texture_mask: u8) -> u16
    ensures { result ≡ section_rows section key texture_mask }
{
    match section {
        Section::Wv => 4,
        Section::Proj => 4,
        Section::Material => material_section_rows(key),
        Section::Lights => lights_section_rows(key),
        Section::Palette => palette_section_rows(key),
        Section::Tt => tt_section_rows(texture_mask),
        Section::Fog => 1,
        Section::Ambient => 1,
    }
}
