// Fog, the ambient colour and the texture mask. A float is given by its bits.
ghost use Rattle.std.specs.Prelude.{◌≡◌};
ghost use Rattle.calls.specs.Answer.{answer};
ghost use Rattle.calls.specs.RenderStates.{ff_set_fog_start, ff_set_fog_end, ff_set_fog_density, ff_set_ambient, ff_set_texture_mask};

use calls::number;

pub fn ff_set_fog_start(image: &mut [u8], bits: u32) -> u32
    ensures { answer result image.new ≡ ff_set_fog_start image.old bits }
{
    number(calls::set_fog_start(image, bits))
}

pub fn ff_set_fog_end(image: &mut [u8], bits: u32) -> u32
    ensures { answer result image.new ≡ ff_set_fog_end image.old bits }
{
    number(calls::set_fog_end(image, bits))
}

pub fn ff_set_fog_density(image: &mut [u8], bits: u32) -> u32
    ensures { answer result image.new ≡ ff_set_fog_density image.old bits }
{
    number(calls::set_fog_density(image, bits))
}

pub fn ff_set_ambient(image: &mut [u8], color: u32) -> u32
    ensures { answer result image.new ≡ ff_set_ambient image.old color }
{
    number(calls::set_ambient(image, color))
}

pub fn ff_set_texture_mask(image: &mut [u8], mask: u8) -> u32
    ensures { answer result image.new ≡ ff_set_texture_mask image.old mask }
{
    number(calls::set_texture_mask(image, mask))
}
