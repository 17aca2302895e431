// What packing refuses. A refused call leaves the destination as it was.
ghost use Rattle.std.specs.Prelude.{◌≡◌, ◌*◌, cond, eqb, Ok, Err, Some};
ghost use Rattle.sections.specs.Counts.{section_rows};
ghost use Rattle.packing.specs.Pack.{pack_error_text};

use sections::{FfVsKey, Section, section_rows};
use std::error::Error;
use std::fmt;

#[derive(Clone, Copy, Debug, PartialEq, Eq)]
pub enum PackError {
    // The destination is not four floats for each of the section's rows.
    WrongLength,
    // The key's light mask is not the mask of the active lights.
    WrongMask,
}

impl fmt::Display for PackError {
    ghost output = { λ e. Some (pack_error_text e) };

    fn fmt<W: fmt::Write>(&self, f: &mut fmt::Formatter<W>) -> fmt::Result {
        f.write_str(match self {
            PackError::WrongLength => "the destination is not as long as the section's rows",
            PackError::WrongMask => "the light mask is not that of the active lights",
        })
    }
}

impl Error for PackError {}

// Refuses a number of floats that is not the section's.
pub fn fits(
    section: Section,
    key: FfVsKey,
    texture_mask: u8,
    length: usize,
) -> Result<(), PackError>
    ensures { result ≡ cond (eqb length (4 * section_rows section key texture_mask)) (Ok tt) (Err PackError.WrongLength) }
{
    let rows = section_rows(section, key, texture_mask);
    if length == 4 * usize::from(rows) {
        return Ok(());
    }
    Err(PackError::WrongLength)
}
