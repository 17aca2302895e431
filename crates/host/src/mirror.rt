// The refresh of a mirror.
ghost use Rattle.std.specs.Prelude.{◌≡◌};
ghost use Rattle.calls.specs.Answer.{answer};
ghost use Rattle.pack_calls.specs.Key.{key_of};
ghost use Rattle.refresh_calls.specs.Mirror.{left, ff_refresh};

use calls::put_number;
use pack_calls::key_of;

pub fn ff_refresh(
    image: &mut [u8],
    has_rhw: u8,
    lighting_enabled: u8,
    specular_enable: u8,
    vertex_blend_indexed: u8,
    preview: u8,
    light_active_mask: u8,
    fog_mode: u8,
    vertex_blend_count: u8,
    mirror: &mut [u8],
    out: &mut u32,
) -> u32
    ensures { answer result (left image.new mirror.new out.new) ≡ ff_refresh image.old (key_of has_rhw lighting_enabled specular_enable vertex_blend_indexed preview light_active_mask fog_mode vertex_blend_count) mirror.old out.old }
{
    let key = key_of(
        has_rhw,
        lighting_enabled,
        specular_enable,
        vertex_blend_indexed,
        preview,
        light_active_mask,
        fog_mode,
        vertex_blend_count,
    );
    put_number(refresh_calls::refresh(image, key, mirror), out)
}
