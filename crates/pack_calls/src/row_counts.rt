// How many rows: of a section, and of a draw. The texture mask is the image's.
ghost use Rattle.std.specs.Prelude.{◌≡◌, ℕ};
ghost use Rattle.calls.specs.Answer.{answer};
ghost use Rattle.calls.specs.Refusal.{code, value_or};
ghost use Rattle.pack_calls.specs.RowCounts.{ff_section_rows, host_row_count};

use calls::{Refusal, read_state};
use sections::{FfVsKey, Section, ff_vs_row_count};

pub fn section_rows(section: Section, image: &[u8], key: FfVsKey) -> Result<u32, Refusal>
    ensures { (out : ℕ) → answer (code result) (value_or out result) ≡ ff_section_rows section image.now key out }
{
    let s = read_state(image)?;
    let rows = sections::section_rows(section, key, s.tt_active_mask);
    Ok(u32::from(rows))
}

pub fn vs_row_count(image: &[u8], key: FfVsKey) -> Result<u32, Refusal>
    ensures { (out : ℕ) → answer (code result) (value_or out result) ≡ host_row_count image.now key out }
{
    let s = read_state(image)?;
    let n = ff_vs_row_count(key, s.tt_active_mask);
    Ok(u32::from(n))
}
