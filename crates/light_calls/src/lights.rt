// Calls on lights, 104 bytes each. A full table is refused 3 and an undefined light 2, before the length of a slice.
ghost use Rattle.std.specs.Prelude.{◌≡◌, ℕ};
ghost use Rattle.calls.specs.Answer.{answer};
ghost use Rattle.calls.specs.Refusal.{code, value_or};
ghost use Rattle.light_calls.specs.Lights.{ff_set_light_at, ff_set_light_enabled_at, ff_get_light_at, ff_is_light_enabled_at, ff_is_light_defined_at, ff_vs_source_light_inputs, ff_compacted_light_masks};

use calls::{Refusal, item_of, put_item, put_state, read_state};
use d3d9_types::D3DLIGHT9;
use light_table::four_bytes;

pub fn set_light_at(image: &mut [u8], index: u32, light: &[u8]) -> Result<(), Refusal>
    ensures { answer (code result) image.new ≡ ff_set_light_at image.old index light.now }
{
    let s = read_state(image)?;
    if !ff_lights::has_room(s, index) {
        return Err(Refusal::TableFull);
    }
    let new: D3DLIGHT9 = item_of(light)?;
    put_state(image, ff_lights::set_light_at(s, index, new)?);
    Ok(())
}

pub fn set_light_enabled_at(image: &mut [u8], index: u32, enabled: u32) -> Result<(), Refusal>
    ensures { answer (code result) image.new ≡ ff_set_light_enabled_at image.old index enabled }
{
    let s = read_state(image)?;
    put_state(
        image,
        ff_lights::set_light_enabled_at(s, index, enabled != 0)?,
    );
    Ok(())
}

pub fn get_light_at(image: &[u8], index: u32, out: &mut [u8]) -> Result<(), Refusal>
    ensures { answer (code result) out.new ≡ ff_get_light_at image.now index out.old }
{
    let s = read_state(image)?;
    let light = ff_lights::get_light_at(s, index).ok_or(Refusal::UndefinedLight)?;
    put_item(light, out)
}

pub fn is_light_enabled_at(image: &[u8], index: u32) -> Result<u32, Refusal>
    ensures { (out : ℕ) → answer (code result) (value_or out result) ≡ ff_is_light_enabled_at image.now index out }
{
    let s = read_state(image)?;
    Ok(u32::from(ff_lights::is_light_enabled_at(s, index)))
}

// Two lines as the read before, which differ in the function called: a third function that took it would be longer than both.
pub fn is_light_defined_at(image: &[u8], index: u32) -> Result<u32, Refusal>
    ensures { (out : ℕ) → answer (code result) (value_or out result) ≡ ff_is_light_defined_at image.now index out }
{
    let s = read_state(image)?;
    Ok(u32::from(ff_lights::is_light_defined_at(s, index)))
}

pub fn vs_source_light_inputs(image: &[u8]) -> Result<u32, Refusal>
    ensures { (out : ℕ) → answer (code result) (value_or out result) ≡ ff_vs_source_light_inputs image.now out }
{
    let s = read_state(image)?;
    Ok(ff_lights::vs_source_light_inputs(s))
}

pub fn compacted_light_masks(image: &[u8]) -> Result<u32, Refusal>
    ensures { (out : ℕ) → answer (code result) (value_or out result) ≡ ff_compacted_light_masks image.now out }
{
    let s = read_state(image)?;
    let masks = ff_lights::compacted_light_masks(s);
    Ok(four_bytes(masks.active, masks.directional, masks.spot, 0))
}
