// The material of a lent state.
ghost use Rattle.std.specs.Prelude.{◌≡◌};
ghost use Rattle.lent_state.specs.Calls.{ff_state_set_material};

use d3d9_types::D3DMATERIAL9;
use ff_state::FfState;

// 0.
pub fn ff_state_set_material(s: &mut FfState, material: &D3DMATERIAL9) -> u32
    ensures { (result, s.new) ≡ ff_state_set_material s.old material.now }
{
    s.store_material(*material);
    0
}
