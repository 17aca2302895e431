// A section by its name.
ghost use Rattle.std.specs.Prelude.{◌≡◌};
ghost use Rattle.packing.specs.Pack.{pack_outcome, pack_section};

use crate::answer::{PackError, fits};
use crate::lights::mask_accepted;
use crate::write::write_section;
use ff_state::FfState;
use sections::{FfVsKey, Section};

// The length is tested before the mask. No section looks at HAS_RHW.
#[tactic(auto, unfolding(crate::specs::Pack::pack_section, crate::specs::Pack::pack_inputs))]
pub fn pack_section(
    section: Section,
    s: &FfState,
    key: FfVsKey,
    dst: &mut [f32],
) -> Result<(), PackError>
    ensures { pack_outcome result dst.new ≡ pack_section section s.now key dst.old }
{
    fits(section, key, s.tt_active_mask, dst.len())?;
    if !mask_accepted(section, s, key) {
        return Err(PackError::WrongMask);
    }
    write_section(section, s, key, dst);
    Ok(())
}
