// The dirty sections of a lent state, in a mirror.
ghost use Rattle.std.specs.Prelude.{◌≡◌};
ghost use Rattle.refresh_parts.specs.Mirror.{left, lent_refresh};

use calls::{Refusal, put_number};
use ff_state::FfState;
use refresh::refresh_in_place;
use sections::FfVsKey;

// 0, and `out` has the bits that were taken; or the number of the refusal, and nothing is written.
#[tactic(auto, unfolding(refresh_parts::specs::Mirror::lent_refresh, refresh_parts::specs::Mirror::told, refresh::specs::Answer::refresh_number))]
pub fn refresh(s: &mut FfState, key: FfVsKey, mirror: &mut [f32], out: &mut u32) -> u32
    ensures { left result s.new mirror.new out.new ≡ lent_refresh s.old key mirror.old out.old }
{
    put_number(refresh_in_place(s, key, mirror).map_err(Refusal::from), out)
}
