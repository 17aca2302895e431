// A key from eight numbers. docs/INTERFACE.md, 'Conventions'.
ghost use Rattle.std.specs.Prelude.{◌≡◌};
ghost use Rattle.pack_calls.specs.Key.{key_of};

use sections::FfVsKey;

// A flag is set by any number but 0.
pub fn key_of(
    has_rhw: u8,
    lighting_enabled: u8,
    specular_enable: u8,
    vertex_blend_indexed: u8,
    preview: u8,
    light_active_mask: u8,
    fog_mode: u8,
    vertex_blend_count: u8,
) -> FfVsKey
    ensures { result ≡ key_of has_rhw lighting_enabled specular_enable vertex_blend_indexed preview light_active_mask fog_mode vertex_blend_count }
{
    FfVsKey {
        has_rhw: has_rhw != 0,
        lighting_enabled: lighting_enabled != 0,
        specular_enable: specular_enable != 0,
        vertex_blend_indexed: vertex_blend_indexed != 0,
        preview: preview != 0,
        light_active_mask,
        fog_mode,
        vertex_blend_count,
    }
}
