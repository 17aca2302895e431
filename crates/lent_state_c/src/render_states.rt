// Fog, the ambient colour and the texture mask of a lent state. Each call answers 0.
ghost use Rattle.std.specs.Prelude.{◌≡◌};
ghost use Rattle.lent_state.specs.Calls.{ff_state_set_fog_start, ff_state_set_fog_end, ff_state_set_fog_density, ff_state_set_ambient, ff_state_set_texture_mask};

use ff_state::FfState;

#[unsafe(no_mangle)]
pub extern "C" fn ff_state_set_fog_start(s: &mut FfState, start: f32) -> u32
    ensures { (result, s.new) ≡ ff_state_set_fog_start s.old start }
{
    lent_state::ff_state_set_fog_start(s, start)
}

#[unsafe(no_mangle)]
pub extern "C" fn ff_state_set_fog_end(s: &mut FfState, end: f32) -> u32
    ensures { (result, s.new) ≡ ff_state_set_fog_end s.old end }
{
    lent_state::ff_state_set_fog_end(s, end)
}

#[unsafe(no_mangle)]
pub extern "C" fn ff_state_set_fog_density(s: &mut FfState, density: f32) -> u32
    ensures { (result, s.new) ≡ ff_state_set_fog_density s.old density }
{
    lent_state::ff_state_set_fog_density(s, density)
}

#[unsafe(no_mangle)]
pub extern "C" fn ff_state_set_ambient(s: &mut FfState, color: u32) -> u32
    ensures { (result, s.new) ≡ ff_state_set_ambient s.old color }
{
    lent_state::ff_state_set_ambient(s, color)
}

#[unsafe(no_mangle)]
pub extern "C" fn ff_state_set_texture_mask(s: &mut FfState, mask: u8) -> u32
    ensures { (result, s.new) ≡ ff_state_set_texture_mask s.old mask }
{
    lent_state::ff_state_set_texture_mask(s, mask)
}
