// The transforms of a lent state.
ghost use Rattle.std.specs.Prelude.{◌≡◌};
ghost use Rattle.lent_transforms.specs.Calls.{ff_state_set_transform, ff_state_multiply_transform};

use d3d9_types::D3DMATRIX;
use ff_state::FfState;

// 0, or 1 for a number that names no transform.
#[unsafe(no_mangle)]
pub extern "C" fn ff_state_set_transform(s: &mut FfState, state: u32, matrix: &D3DMATRIX) -> u32
    ensures { (result, s.new) ≡ ff_state_set_transform s.old state matrix.now }
{
    lent_transforms::ff_state_set_transform(s, state, matrix)
}

#[unsafe(no_mangle)]
pub extern "C" fn ff_state_multiply_transform(
    s: &mut FfState,
    state: u32,
    matrix: &D3DMATRIX,
) -> u32
    ensures { (result, s.new) ≡ ff_state_multiply_transform s.old state matrix.now }
{
    lent_transforms::ff_state_multiply_transform(s, state, matrix)
}
