// The dirty bits of a lent state.
ghost use Rattle.std.specs.Prelude.{◌≡◌};
ghost use Rattle.lent_state.specs.Calls.{ff_state_mark_ff_vs_dirty, ff_state_take_ff_vs_dirty};

use ff_state::FfState;

#[unsafe(no_mangle)]
pub extern "C" fn ff_state_mark_ff_vs_dirty(s: &mut FfState, bits: u32) -> u32
    ensures { (result, s.new) ≡ ff_state_mark_ff_vs_dirty s.old bits }
{
    lent_state::ff_state_mark_ff_vs_dirty(s, bits)
}

#[unsafe(no_mangle)]
pub extern "C" fn ff_state_take_ff_vs_dirty(s: &mut FfState, out: &mut u32) -> u32
    ensures { (result, out.new, s.new) ≡ ff_state_take_ff_vs_dirty s.old }
{
    lent_state::ff_state_take_ff_vs_dirty(s, out)
}
