// Calls on transforms. An unknown state is refused 1, before the length of a slice.
ghost use Rattle.std.specs.Prelude.{◌≡◌, ℕ};
ghost use Rattle.calls.specs.Answer.{answer};
ghost use Rattle.calls.specs.Refusal.{code, value_or};
ghost use Rattle.transform_calls.specs.Transforms.{ff_set_transform, ff_multiply_transform, ff_transform, ff_world_palette_used, ff_world_view_projection};

use calls::{Refusal, item_of, put_item, put_state, read_state};
use d3d9_types::D3DMATRIX;
use ff_state::{UnknownState, slot_of};

pub fn set_transform(image: &mut [u8], state: u32, matrix: &[u8]) -> Result<(), Refusal>
    ensures { answer (code result) image.new ≡ ff_set_transform image.old state matrix.now }
{
    let s = read_state(image)?;
    slot_of(state).ok_or(UnknownState)?;
    let m: D3DMATRIX = item_of(matrix)?;
    put_state(image, s.set_transform(state, m)?);
    Ok(())
}

// The first three lines are a set's: as a function they would need a contract longer than they are.
pub fn multiply_transform(image: &mut [u8], state: u32, matrix: &[u8]) -> Result<(), Refusal>
    ensures { answer (code result) image.new ≡ ff_multiply_transform image.old state matrix.now }
{
    let s = read_state(image)?;
    slot_of(state).ok_or(UnknownState)?;
    let m: D3DMATRIX = item_of(matrix)?;
    put_state(image, s.multiply_transform(state, m)?);
    Ok(())
}

pub fn transform(image: &[u8], state: u32, out: &mut [u8]) -> Result<(), Refusal>
    ensures { answer (code result) out.new ≡ ff_transform image.now state out.old }
{
    let s = read_state(image)?;
    let m = s.transform_at(state)?;
    put_item(m, out)
}

pub fn world_palette_used(image: &[u8]) -> Result<u32, Refusal>
    ensures { (out : ℕ) → answer (code result) (value_or out result) ≡ ff_world_palette_used image.now out }
{
    let s = read_state(image)?;
    Ok(s.world_palette_used())
}

// The lines of `calls::material`, but for what is read: a closure for that would be as long as they are.
pub fn world_view_projection(image: &[u8], out: &mut [u8]) -> Result<(), Refusal>
    ensures { answer (code result) out.new ≡ ff_world_view_projection image.now out.old }
{
    let s = read_state(image)?;
    put_item(s.world_view_projection(), out)
}
