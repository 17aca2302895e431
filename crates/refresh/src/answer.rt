// What refresh refuses.
ghost use Rattle.std.specs.Prelude.{◌≡◌, Some};
ghost use Rattle.refresh.specs.Answer.{refresh_answer, refresh_error_text};

use ff_state::FfState;
use packing::mask_accepted;
use sections::{FfVsKey, MIRROR_FLOATS, Section};
use std::error::Error;
use std::fmt;

#[derive(Clone, Copy, Debug, PartialEq, Eq)]
pub enum RefreshError {
    // The mirror is not 1,115 rows of four floats.
    WrongLength,
    // Vertices under this key are transformed already.
    HasRhw,
    // The key's light mask is not the mask of the active lights.
    WrongMask,
}

impl fmt::Display for RefreshError {
    ghost output = { λ e. Some (refresh_error_text e) };

    fn fmt<W: fmt::Write>(&self, f: &mut fmt::Formatter<W>) -> fmt::Result {
        f.write_str(match self {
            RefreshError::WrongLength => "the mirror is not 1,115 rows long",
            RefreshError::HasRhw => "vertices under this key are transformed already",
            RefreshError::WrongMask => "the light mask is not that of the active lights",
        })
    }
}

impl Error for RefreshError {}

// The refusals in document 01's order. The mask is looked at whether the lights are dirty or not.
#[tactic(auto, unfolding(crate::specs::Answer::refresh_answer))]
pub fn refresh_answer(s: &FfState, key: FfVsKey, length: usize) -> Result<(), RefreshError>
    ensures { result ≡ refresh_answer s.now key length }
{
    if length != MIRROR_FLOATS {
        return Err(RefreshError::WrongLength);
    }
    if key.has_rhw {
        return Err(RefreshError::HasRhw);
    }
    if !mask_accepted(Section::Lights, s, key) {
        return Err(RefreshError::WrongMask);
    }
    Ok(())
}
