// Calls on the material, 68 bytes.
ghost use Rattle.std.specs.Prelude.{◌≡◌};
ghost use Rattle.calls.specs.Answer.{answer};
ghost use Rattle.calls.specs.Refusal.{code};
ghost use Rattle.calls.specs.Materials.{ff_set_material, ff_material};

use crate::images::{put_state, read_state};
use crate::items::{item_of, put_item};
use crate::refusal::Refusal;
use d3d9_types::D3DMATERIAL9;

pub fn set_material(image: &mut [u8], material: &[u8]) -> Result<(), Refusal>
    ensures { answer (code result) image.new ≡ ff_set_material image.old material.now }
{
    let s = read_state(image)?;
    let new: D3DMATERIAL9 = item_of(material)?;
    put_state(image, s.set_material(new));
    Ok(())
}

pub fn material(image: &[u8], out: &mut [u8]) -> Result<(), Refusal>
    ensures { answer (code result) out.new ≡ ff_material image.now out.old }
{
    let s = read_state(image)?;
    put_item(s.material(), out)
}
