// Fog, the ambient colour and the texture mask of a lent state. Each call answers 0; `lent_state_c` has a C name for each.
ghost use Rattle.std.specs.Prelude.{◌≡◌};
ghost use Rattle.lent_state.specs.Calls.{ff_state_set_fog_start, ff_state_set_fog_end, ff_state_set_fog_density, ff_state_set_ambient, ff_state_set_texture_mask};

use ff_state::FfState;

pub fn ff_state_set_fog_start(s: &mut FfState, start: f32) -> u32
    ensures { (result, s.new) ≡ ff_state_set_fog_start s.old start }
{
    s.store_fog_start(start);
    0
}

pub fn ff_state_set_fog_end(s: &mut FfState, end: f32) -> u32
    ensures { (result, s.new) ≡ ff_state_set_fog_end s.old end }
{
    s.store_fog_end(end);
    0
}

pub fn ff_state_set_fog_density(s: &mut FfState, density: f32) -> u32
    ensures { (result, s.new) ≡ ff_state_set_fog_density s.old density }
{
    s.store_fog_density(density);
    0
}

pub fn ff_state_set_ambient(s: &mut FfState, color: u32) -> u32
    ensures { (result, s.new) ≡ ff_state_set_ambient s.old color }
{
    s.store_ambient(color);
    0
}

pub fn ff_state_set_texture_mask(s: &mut FfState, mask: u8) -> u32
    ensures { (result, s.new) ≡ ff_state_set_texture_mask s.old mask }
{
    s.store_texture_mask(mask);
    0
}
