// A section written into its bytes of the mirror.
ghost use Rattle.std.specs.Prelude.{◌≡◌, true, length};
ghost use Rattle.sections.specs.declared.sections.Section.TheVariants.{Lights};
ghost use Rattle.packing.specs.Inputs.{mask_accepted, inputs_of};
ghost use Rattle.refresh_calls.specs.Written.{written_section_bytes};

use ff_state::FfState;
use pack_calls::write_bytes;
use refresh::has_section;
use sections::{FfVsKey, MIRROR_FLOATS, Section, first_row, section_rows};

// The bytes of the section's rows in their place, if the bits name it. Not `write_section` over the mirror as floats: a row that is not written
// keeps its bytes, and a float has one NaN.
// The `if` and the range stand in `refresh` too, there in floats alone: a function for both would be longer than these lines. Both clauses are what the
// refresh has tested; a type could not say of which state and key (`write_section` of `packing`).
pub fn write_section_bytes(
    section: Section,
    bits: u32,
    s: &FfState,
    key: FfVsKey,
    floats: &mut [f32; MIRROR_FLOATS],
    mirror: &mut [u8],
)
    requires { (length mirror.old ≡ 17_840) × (mask_accepted Lights key (inputs_of s.now) ≡ true) }
    ensures { mirror.new ≡ written_section_bytes section bits s.now key mirror.old }
{
    if has_section(bits, section) {
        let row = first_row(section);
        let rows = section_rows(section, key, s.tt_active_mask);
        let n = 4 * usize::from(rows);
        let first = 16 * usize::from(row);
        let end = first + 4 * n;
        let part = &mut mirror[first..end];
        write_bytes(section, s, key, &mut floats[..n], part);
    }
}
