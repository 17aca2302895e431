// Fog, the ambient colour and the texture mask. A float is given by its bits.
ghost use Rattle.std.specs.Prelude.{◌≡◌};
ghost use Rattle.calls.specs.Answer.{answer};
ghost use Rattle.calls.specs.RenderStates.{ff_set_fog_start, ff_set_fog_end, ff_set_fog_density, ff_set_ambient, ff_set_texture_mask};

#[unsafe(no_mangle)]
pub extern "C" fn ff_set_fog_start(image: &mut [u8], bits: u32) -> u32
    ensures { answer result image.new ≡ ff_set_fog_start image.old bits }
{
    host::render_states::ff_set_fog_start(image, bits)
}

#[unsafe(no_mangle)]
pub extern "C" fn ff_set_fog_end(image: &mut [u8], bits: u32) -> u32
    ensures { answer result image.new ≡ ff_set_fog_end image.old bits }
{
    host::render_states::ff_set_fog_end(image, bits)
}

#[unsafe(no_mangle)]
pub extern "C" fn ff_set_fog_density(image: &mut [u8], bits: u32) -> u32
    ensures { answer result image.new ≡ ff_set_fog_density image.old bits }
{
    host::render_states::ff_set_fog_density(image, bits)
}

#[unsafe(no_mangle)]
pub extern "C" fn ff_set_ambient(image: &mut [u8], color: u32) -> u32
    ensures { answer result image.new ≡ ff_set_ambient image.old color }
{
    host::render_states::ff_set_ambient(image, color)
}

#[unsafe(no_mangle)]
pub extern "C" fn ff_set_texture_mask(image: &mut [u8], mask: u8) -> u32
    ensures { answer result image.new ≡ ff_set_texture_mask image.old mask }
{
    host::render_states::ff_set_texture_mask(image, mask)
}
