// The material, 68 bytes.
ghost use Rattle.std.specs.Prelude.{◌≡◌};
ghost use Rattle.calls.specs.Answer.{answer};
ghost use Rattle.calls.specs.Materials.{ff_set_material, ff_material};

use calls::number;

pub fn ff_set_material(image: &mut [u8], material: &[u8]) -> u32
    ensures { answer result image.new ≡ ff_set_material image.old material.now }
{
    number(calls::set_material(image, material))
}

pub fn ff_material(image: &[u8], out: &mut [u8]) -> u32
    ensures { answer result out.new ≡ ff_material image.now out.old }
{
    number(calls::material(image, out))
}
