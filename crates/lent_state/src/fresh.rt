// The fresh state, written over whatever lies there.
ghost use Rattle.std.specs.Prelude.{◌≡◌};
ghost use Rattle.ff_state.specs.State.{fresh_state};

use ff_state::FfState;

pub fn ff_state_fresh(s: &mut FfState)
    ensures { s.new ≡ fresh_state }
{
    *s = FfState::new();
}
