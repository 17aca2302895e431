// The dirty bits of a lent state.
ghost use Rattle.std.specs.Prelude.{◌≡◌};
ghost use Rattle.lent_state.specs.Calls.{ff_state_mark_ff_vs_dirty, ff_state_take_ff_vs_dirty};

use calls::{Refusal, number};
use ff_state::FfState;

// For C 0, or 7 for a bit that is no section's.
#[tactic(auto, unfolding(ff_state::specs::Dirty::mark_number))]
pub fn ff_state_mark_ff_vs_dirty(s: &mut FfState, bits: u32) -> u32
    ensures { (result, s.new) ≡ ff_state_mark_ff_vs_dirty s.old bits }
{
    number(s.mark_in_place(bits).map_err(Refusal::from))
}

// 0; the dirty bits go to `out`, and are none afterwards.
pub fn ff_state_take_ff_vs_dirty(s: &mut FfState, out: &mut u32) -> u32
    ensures { (result, out.new, s.new) ≡ ff_state_take_ff_vs_dirty s.old }
{
    *out = s.take_in_place();
    0
}
