// The call as a host makes it, which `lent_refresh_c` exports. The key is eight numbers, as in `ff_refresh`.
ghost use Rattle.std.specs.Prelude.{◌≡◌};
ghost use Rattle.pack_calls.specs.Key.{key_of};
ghost use Rattle.refresh_parts.specs.Mirror.{left, lent_refresh};

use crate::mirror::refresh;
use ff_state::FfState;
use pack_calls::key_of;

pub fn ff_state_refresh(
    s: &mut FfState,
    has_rhw: u8,
    lighting_enabled: u8,
    specular_enable: u8,
    vertex_blend_indexed: u8,
    preview: u8,
    light_active_mask: u8,
    fog_mode: u8,
    vertex_blend_count: u8,
    mirror: &mut [f32],
    out: &mut u32,
) -> u32
    ensures { left result s.new mirror.new out.new ≡ lent_refresh s.old (key_of has_rhw lighting_enabled specular_enable vertex_blend_indexed preview light_active_mask fog_mode vertex_blend_count) mirror.old out.old }
{
    let key = key_of(
        has_rhw,
        lighting_enabled,
        specular_enable,
        vertex_blend_indexed,
        preview,
        light_active_mask,
        fog_mode,
        vertex_blend_count,
    );
    refresh(s, key, mirror, out)
}
