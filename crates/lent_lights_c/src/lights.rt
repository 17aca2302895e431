// Lights by any index: a slot in place, and from index 8 on the table.
ghost use Rattle.std.specs.Prelude.{◌≡◌};
ghost use Rattle.lent_lights.specs.Calls.{ff_state_set_light_at, ff_state_set_light_enabled_at, ff_state_vs_source_light_inputs};

use d3d9_types::D3DLIGHT9;
use ff_state::FfState;

#[unsafe(no_mangle)]
pub extern "C" fn ff_state_set_light_at(s: &mut FfState, index: u32, light: &D3DLIGHT9) -> u32
    ensures { (result, s.new) ≡ ff_state_set_light_at s.old index light.now }
{
    lent_lights::ff_state_set_light_at(s, index, light)
}

#[unsafe(no_mangle)]
pub extern "C" fn ff_state_set_light_enabled_at(s: &mut FfState, index: u32, enabled: u32) -> u32
    ensures { (result, s.new) ≡ ff_state_set_light_enabled_at s.old index enabled }
{
    lent_lights::ff_state_set_light_enabled_at(s, index, enabled)
}

// 0; what a key is made from goes to `out`.
#[unsafe(no_mangle)]
pub extern "C" fn ff_state_vs_source_light_inputs(s: &FfState, out: &mut u32) -> u32
    ensures { (result, out.new) ≡ ff_state_vs_source_light_inputs s.now }
{
    lent_lights::ff_state_vs_source_light_inputs(s, out)
}
