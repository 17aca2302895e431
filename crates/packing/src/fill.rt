// The fills of document 01, each handed the state, the key and the destination. Those that call `pack_section` copy no state, as built: where they were
// timed, WV took some 25 ns, PROJ 3.5 and MATERIAL 2.4.
ghost use Rattle.std.specs.Prelude.{◌≡◌};
ghost use Rattle.sections.specs.declared.sections.Section.TheVariants.{Wv, Proj, Material, Lights, Palette, Tt, Fog, Ambient};
ghost use Rattle.packing.specs.Pack.{pack_outcome, pack_section};

use crate::answer::{PackError, fits};
use crate::pack::pack_section;
use crate::write::write_palette_section;
use ff_lights::resolve_active_lights;
use ff_state::FfState;
use light_rows::write_lights;
use light_table::low_bits;
use sections::{FfVsKey, Section};

pub fn fill_wv_section(s: FfState, key: FfVsKey, dst: &mut [f32]) -> Result<(), PackError>
    ensures { pack_outcome result dst.new ≡ pack_section Wv s key dst.old }
{
    pack_section(Section::Wv, &s, key, dst)
}

pub fn fill_proj_section(s: FfState, key: FfVsKey, dst: &mut [f32]) -> Result<(), PackError>
    ensures { pack_outcome result dst.new ≡ pack_section Proj s key dst.old }
{
    pack_section(Section::Proj, &s, key, dst)
}

pub fn fill_material_section(s: FfState, key: FfVsKey, dst: &mut [f32]) -> Result<(), PackError>
    ensures { pack_outcome result dst.new ≡ pack_section Material s key dst.old }
{
    pack_section(Section::Material, &s, key, dst)
}

// Not `pack_section`, which lists the lights once for the mask and once for the rows, of a state that is copied for a reference to it: of eight spot
// lights that takes 1,500 ns, and this 600.
#[tactic(auto, unfolding(crate::specs::Pack::pack_section, crate::specs::Pack::pack_inputs))]
pub fn fill_lights_section(s: FfState, key: FfVsKey, dst: &mut [f32]) -> Result<(), PackError>
    ensures { pack_outcome result dst.new ≡ pack_section Lights s key dst.old }
{
    fits(Section::Lights, key, s.tt_active_mask, dst.len())?;
    let mask = key.light_active_mask;
    if mask == 0 {
        return Ok(());
    }
    let list = resolve_active_lights(s, key);
    if mask != low_bits(list.len) {
        return Err(PackError::WrongMask);
    }
    write_lights(dst, s.view, &list.lights[..list.len]);
    Ok(())
}

// Not `pack_section`, for which the state is copied: of 40 matrices that takes 1,250 ns, and this 870.
#[tactic(auto, unfolding(crate::specs::Pack::pack_section, crate::specs::Pack::pack_inputs, crate::specs::Inputs::packed_rows, crate::specs::Inputs::mask_accepted))]
pub fn fill_palette_section(s: FfState, key: FfVsKey, dst: &mut [f32]) -> Result<(), PackError>
    ensures { pack_outcome result dst.new ≡ pack_section Palette s key dst.old }
{
    fits(Section::Palette, key, s.tt_active_mask, dst.len())?;
    let palette = s.world_palette;
    write_palette_section(s.view, &palette, key, dst);
    Ok(())
}

// Of an empty destination under mask 0 nothing is written.
pub fn fill_tt_section(s: FfState, key: FfVsKey, dst: &mut [f32]) -> Result<(), PackError>
    ensures { pack_outcome result dst.new ≡ pack_section Tt s key dst.old }
{
    pack_section(Section::Tt, &s, key, dst)
}

pub fn fill_fog_section(s: FfState, key: FfVsKey, dst: &mut [f32]) -> Result<(), PackError>
    ensures { pack_outcome result dst.new ≡ pack_section Fog s key dst.old }
{
    pack_section(Section::Fog, &s, key, dst)
}

pub fn fill_ambient_section(s: FfState, key: FfVsKey, dst: &mut [f32]) -> Result<(), PackError>
    ensures { pack_outcome result dst.new ≡ pack_section Ambient s key dst.old }
{
    pack_section(Section::Ambient, &s, key, dst)
}
