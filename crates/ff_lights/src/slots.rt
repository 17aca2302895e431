// The eight light slots and their masks, changed in place.
ghost use Rattle.std.specs.Prelude.{◌≡◌, ◌<◌};
ghost use Rattle.ff_state.specs.Slots.{set_slot, enable_slot, define_slot};

use d3d9_types::{D3DLIGHT_DIRECTIONAL, D3DLIGHT_SPOT, D3DLIGHT9};
use ff_state::FfState;
use light_table::light_type_contributes;
use words::{has_bit, with_bit};

// A light stored in slot i. Its enable stays.
#[tactic(auto, unfolding(ff_state::specs::Slots::set_slot))]
pub fn set_slot(s: &mut FfState, i: u32, light: D3DLIGHT9)
    requires { i < 8 }
    ensures { s.new ≡ set_slot s.old i light }
{
    let kind = light.type_;
    s.lights[i as usize] = light;
    s.light_defined_mask = with_bit(s.light_defined_mask, i, true);
    s.light_set_mask = with_bit(s.light_set_mask, i, light_type_contributes(kind));
    s.light_directional_mask = with_bit(s.light_directional_mask, i, kind == D3DLIGHT_DIRECTIONAL);
    s.light_spot_mask = with_bit(s.light_spot_mask, i, kind == D3DLIGHT_SPOT);
}

// The default light stored in slot i where there is none.
#[tactic(auto, unfolding(ff_state::specs::Slots::define_slot))]
fn define_slot(s: &mut FfState, i: u32)
    requires { i < 8 }
    ensures { s.new ≡ define_slot s.old i }
{
    if !has_bit(s.light_defined_mask, i) {
        set_slot(s, i, D3DLIGHT9::default());
    }
}

// Slot i enabled or disabled.
#[tactic(auto, unfolding(ff_state::specs::Slots::enable_slot))]
pub fn enable_slot(s: &mut FfState, i: u32, enabled: bool)
    requires { i < 8 }
    ensures { s.new ≡ enable_slot s.old i enabled }
{
    define_slot(s, i);
    s.light_enabled = with_bit(s.light_enabled, i, enabled);
}
