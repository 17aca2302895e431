// Lights by any index, over the calls in place.
ghost use Rattle.std.specs.Prelude.{◌≡◌};
ghost use Rattle.lent_lights.specs.Calls.{ff_state_set_light_at, ff_state_set_light_enabled_at, ff_state_vs_source_light_inputs};

use calls::{Refusal, number};
use d3d9_types::D3DLIGHT9;
use ff_lights::{enable_light_at, store_light_at, vs_source_light_inputs};
use ff_state::FfState;

// For C 0, or 3 where 56 other lights from index 8 on are stored.
pub fn ff_state_set_light_at(s: &mut FfState, index: u32, light: &D3DLIGHT9) -> u32
    ensures { (result, s.new) ≡ ff_state_set_light_at s.old index light.now }
{
    number(store_light_at(s, index, light).map_err(Refusal::from))
}

// Any number but 0 enables.
pub fn ff_state_set_light_enabled_at(s: &mut FfState, index: u32, enabled: u32) -> u32
    ensures { (result, s.new) ≡ ff_state_set_light_enabled_at s.old index enabled }
{
    number(enable_light_at(s, index, enabled != 0).map_err(Refusal::from))
}

// 0; what a key is made from goes to `out`.
pub fn ff_state_vs_source_light_inputs(s: &FfState, out: &mut u32) -> u32
    ensures { (result, out.new) ≡ ff_state_vs_source_light_inputs s.now }
{
    *out = vs_source_light_inputs(*s);
    0
}
