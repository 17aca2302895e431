// The sections of the constant buffer: their dirty bits, and the row that each begins at.
ghost use Rattle.std.specs.Prelude.{◌≡◌, Some};
ghost use Rattle.sections.specs.Sections.{bit_of, first_row, section_of, unknown_section_text};

use std::error::Error;
use std::fmt;

// Each by its dirty bit.
#[derive(Clone, Copy, Debug, PartialEq, Eq)]
pub enum Section {
    Wv = 1,
    Proj = 2,
    Material = 4,
    Lights = 8,
    Palette = 16,
    Tt = 32,
    Fog = 64,
    Ambient = 128,
}

pub const WV: u8 = Section::Wv as u8;

pub const PROJ: u8 = Section::Proj as u8;

pub const MATERIAL: u8 = Section::Material as u8;

pub const LIGHTS: u8 = Section::Lights as u8;

pub const PALETTE: u8 = Section::Palette as u8;

pub const TT: u8 = Section::Tt as u8;

pub const FOG: u8 = Section::Fog as u8;

pub const AMBIENT: u8 = Section::Ambient as u8;

pub const ALL: u8 = WV + PROJ + MATERIAL + LIGHTS + PALETTE + TT + FOG + AMBIENT;

// The floats of a mirror: 1,115 rows of four. Every section lies within.
pub const MIRROR_FLOATS: usize = 4460;

// Each section once, in the order of their bits.
pub const SECTIONS: [Section; 8] = [
    Section::Wv,
    Section::Proj,
    Section::Material,
    Section::Lights,
    Section::Palette,
    Section::Tt,
    Section::Fog,
    Section::Ambient,
];

// The dirty bit: a section's number.
impl From<Section> for u8 {
    ghost from_gives = { λ section bit. bit ≡ bit_of section };

    fn from(section: Section) -> u8 {
        section as u8
    }
}

// A number that is no section's bit.
#[derive(Clone, Copy, Debug, PartialEq, Eq)]
pub struct UnknownSection;

impl fmt::Display for UnknownSection {
    ghost output = { λ _. Some unknown_section_text };

    fn fmt<W: fmt::Write>(&self, f: &mut fmt::Formatter<W>) -> fmt::Result {
        f.write_str("a number that is no section's bit")
    }
}

impl Error for UnknownSection {}

impl TryFrom<u32> for Section {
    type Error = UnknownSection;

    ghost try_from_gives = { λ bit r. r ≡ section_of bit };

    fn try_from(bit: u32) -> Result<Section, UnknownSection> {
        let found = SECTIONS.iter().find(|s| u32::from(u8::from(**s)) == bit);
        found.copied().ok_or(UnknownSection)
    }
}

pub fn first_row(section: Section) -> u16
    ensures { result ≡ first_row section }
{
    match section {
        Section::Wv => 0,
        Section::Proj => 4,
        Section::Material => 10,
        Section::Lights => 15,
        Section::Palette => 95,
        Section::Tt => 63,
        Section::Fog => 8,
        Section::Ambient => 9,
    }
}
