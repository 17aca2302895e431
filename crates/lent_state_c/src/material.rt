// The material of a lent state.
ghost use Rattle.std.specs.Prelude.{◌≡◌};
ghost use Rattle.lent_state.specs.Calls.{ff_state_set_material};

use d3d9_types::D3DMATERIAL9;
use ff_state::FfState;

#[unsafe(no_mangle)]
pub extern "C" fn ff_state_set_material(s: &mut FfState, material: &D3DMATERIAL9) -> u32
    ensures { (result, s.new) ≡ ff_state_set_material s.old material.now }
{
    lent_state::ff_state_set_material(s, material)
}
