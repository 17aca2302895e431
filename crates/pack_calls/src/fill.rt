// The rows of a section, as bytes.
ghost use Rattle.std.specs.Prelude.{◌≡◌, ◌*◌, true, length};
ghost use Rattle.calls.specs.Answer.{answer};
ghost use Rattle.calls.specs.Refusal.{code};
ghost use Rattle.packing.specs.Inputs.{mask_accepted, inputs_of};
ghost use Rattle.packing.specs.Pack.{state_count};
ghost use Rattle.pack_calls.specs.Fill.{fill_bytes, ff_fill_section};

use calls::{Refusal, of_length, read_state};
use ff_state::FfState;
use image_lists::put_list;
use packing::{pack_section, write_section};
use sections::{FfVsKey, MIRROR_FLOATS, Section, section_rows};

// No section has more floats than the mirror.
pub fn mirror_floats() -> [f32; MIRROR_FLOATS]
    ensures { length result ≡ 4460 }
{
    [0.0f32; MIRROR_FLOATS]
}

// A section's rows, made in the floats and written as bytes, past the tests of length and mask, which the clauses are (`write_section` of `packing` says
// why no type is).
pub fn write_bytes(section: Section, s: &FfState, key: FfVsKey, floats: &mut [f32], dst: &mut [u8])
    requires floats { length floats.old ≡ 4 * state_count section s.now key }
    requires bytes { length dst.old ≡ 4 * length floats.old }
    requires mask { mask_accepted section key (inputs_of s.now) ≡ true }
    ensures { dst.new ≡ fill_bytes section key s.now }
{
    write_section(section, s, key, floats);
    put_list(dst, 0, floats);
}

pub fn fill_section(
    section: Section,
    image: &[u8],
    key: FfVsKey,
    dst: &mut [u8],
) -> Result<(), Refusal>
    ensures { answer (code result) dst.new ≡ ff_fill_section section image.now key dst.old }
{
    let s = read_state(image)?;
    let rows = section_rows(section, key, s.tt_active_mask);
    let n = 4 * usize::from(rows);
    of_length(dst, 4 * n)?;
    let mut floats = mirror_floats();
    let packed = &mut floats[..n];
    pack_section(section, &s, key, packed)?;
    put_list(dst, 0, packed);
    Ok(())
}
