// The fresh state, written over whatever lies there.
ghost use Rattle.std.specs.Prelude.{◌≡◌};
ghost use Rattle.ff_state.specs.State.{fresh_state};

use ff_state::FfState;

#[unsafe(no_mangle)]
pub extern "C" fn ff_state_fresh(s: &mut FfState)
    ensures { s.new ≡ fresh_state }
{
    lent_state::ff_state_fresh(s)
}
