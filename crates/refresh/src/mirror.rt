// The dirty sections of a mirror.
ghost use Rattle.std.specs.Prelude.{◌≡◌};
ghost use Rattle.refresh.specs.Mirror.{refreshed, result_of, in_place, refresh_mirror};

use crate::answer::{RefreshError, refresh_answer};
use crate::written::write_dirty;
use ff_state::{FfState, Taken};
use sections::{FfVsKey, SECTIONS};

// Takes the dirty bits and writes each section that they name. A refused refresh changes nothing. State, key and mirror are what document 01 hands
// a refresh, and it keeps none of them.
#[tactic(auto, unfolding(crate::specs::Mirror::refresh_mirror, crate::specs::Mirror::refresh_by))]
pub fn refresh_in_place(
    s: &mut FfState,
    key: FfVsKey,
    mirror: &mut [f32],
) -> Result<u32, RefreshError>
    ensures { refreshed (in_place s.new result) mirror.new ≡ refresh_mirror s.old key mirror.old }
{
    refresh_answer(s, key, mirror.len())?;
    let bits = s.take_in_place();
    for section in &SECTIONS {
        write_dirty(*section, bits, s, key, mirror);
    }
    Ok(bits)
}

// The same by value: beside a refusal the caller's state is as it was.
pub fn refresh(s: FfState, key: FfVsKey, mirror: &mut [f32]) -> Result<Taken, RefreshError>
    ensures { refreshed (result_of s result) mirror.new ≡ refresh_mirror s key mirror.old }
{
    let mut state = s;
    let bits = refresh_in_place(&mut state, key, mirror)?;
    Ok(Taken { bits, state })
}
