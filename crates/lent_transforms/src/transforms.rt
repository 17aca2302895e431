// The transforms of a lent state. For C 0, or 1 for a number that names no transform.
ghost use Rattle.std.specs.Prelude.{◌≡◌};
ghost use Rattle.lent_transforms.specs.Calls.{ff_state_set_transform, ff_state_multiply_transform};

use calls::{Refusal, number};
use d3d9_types::D3DMATRIX;
use ff_state::FfState;

pub fn ff_state_set_transform(s: &mut FfState, state: u32, matrix: &D3DMATRIX) -> u32
    ensures { (result, s.new) ≡ ff_state_set_transform s.old state matrix.now }
{
    number(s.store_transform(state, *matrix).map_err(Refusal::from))
}

// Stores argument x slot.
pub fn ff_state_multiply_transform(s: &mut FfState, state: u32, matrix: &D3DMATRIX) -> u32
    ensures { (result, s.new) ≡ ff_state_multiply_transform s.old state matrix.now }
{
    number(s.multiply_in_place(state, *matrix).map_err(Refusal::from))
}
