// A section written into its part of the mirror.
ghost use Rattle.std.specs.Prelude.{◌≡◌, true, length};
ghost use Rattle.sections.specs.Sections.{has_section};
ghost use Rattle.sections.specs.declared.sections.Section.TheVariants.{Lights};
ghost use Rattle.packing.specs.Inputs.{mask_accepted, inputs_of};
ghost use Rattle.refresh.specs.Written.{written_section};

use ff_state::FfState;
use packing::write_section;
use sections::{FfVsKey, Section, first_row, section_rows};

// Whether a word of dirty bits names the section.
pub fn has_section(bits: u32, section: Section) -> bool
    ensures { result ≡ has_section bits section }
{
    let bit = u32::from(u8::from(section));
    bits & bit != 0
}

// The section's rows in their place, if the bits name it. Not of an array: `refresh_answer` tests the mirror's length, and `as_mut_array` behind it
// would have an arm that no call comes to.
pub fn write_dirty(section: Section, bits: u32, s: &FfState, key: FfVsKey, mirror: &mut [f32])
    requires { (length mirror.old ≡ 4460) × (mask_accepted Lights key (inputs_of s.now) ≡ true) }
    ensures { mirror.new ≡ written_section section bits s.now key mirror.old }
{
    if has_section(bits, section) {
        let row = first_row(section);
        let rows = section_rows(section, key, s.tt_active_mask);
        let first = 4 * usize::from(row);
        let end = first + 4 * usize::from(rows);
        write_section(section, s, key, &mut mirror[first..end]);
    }
}
