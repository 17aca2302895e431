// The rows of each section as bytes, 16 to a row. `host_c` has a C name for each section, and .ci/exports holds each to the function of its name here.
ghost use Rattle.std.specs.Prelude.{◌≡◌};
ghost use Rattle.calls.specs.Answer.{answer};
ghost use Rattle.sections.specs.declared.sections.Section.TheVariants.{Wv, Proj, Material, Lights, Palette, Tt, Fog, Ambient};
ghost use Rattle.pack_calls.specs.Fill.{ff_fill_section};
ghost use Rattle.pack_calls.specs.Key.{key_of};

use calls::number;
use pack_calls::{fill_section, key_of};
use sections::Section;

pub fn ff_fill_wv_section(
    image: &[u8],
    has_rhw: u8,
    lighting_enabled: u8,
    specular_enable: u8,
    vertex_blend_indexed: u8,
    preview: u8,
    light_active_mask: u8,
    fog_mode: u8,
    vertex_blend_count: u8,
    dst: &mut [u8],
) -> u32
    ensures { answer result dst.new ≡ ff_fill_section Wv image.now (key_of has_rhw lighting_enabled specular_enable vertex_blend_indexed preview light_active_mask fog_mode vertex_blend_count) dst.old }
{
    let key = key_of(
        has_rhw,
        lighting_enabled,
        specular_enable,
        vertex_blend_indexed,
        preview,
        light_active_mask,
        fog_mode,
        vertex_blend_count,
    );
    number(fill_section(Section::Wv, image, key, dst))
}

pub fn ff_fill_proj_section(
    image: &[u8],
    has_rhw: u8,
    lighting_enabled: u8,
    specular_enable: u8,
    vertex_blend_indexed: u8,
    preview: u8,
    light_active_mask: u8,
    fog_mode: u8,
    vertex_blend_count: u8,
    dst: &mut [u8],
) -> u32
    ensures { answer result dst.new ≡ ff_fill_section Proj image.now (key_of has_rhw lighting_enabled specular_enable vertex_blend_indexed preview light_active_mask fog_mode vertex_blend_count) dst.old }
{
    let key = key_of(
        has_rhw,
        lighting_enabled,
        specular_enable,
        vertex_blend_indexed,
        preview,
        light_active_mask,
        fog_mode,
        vertex_blend_count,
    );
    number(fill_section(Section::Proj, image, key, dst))
}

pub fn ff_fill_material_section(
    image: &[u8],
    has_rhw: u8,
    lighting_enabled: u8,
    specular_enable: u8,
    vertex_blend_indexed: u8,
    preview: u8,
    light_active_mask: u8,
    fog_mode: u8,
    vertex_blend_count: u8,
    dst: &mut [u8],
) -> u32
    ensures { answer result dst.new ≡ ff_fill_section Material image.now (key_of has_rhw lighting_enabled specular_enable vertex_blend_indexed preview light_active_mask fog_mode vertex_blend_count) dst.old }
{
    let key = key_of(
        has_rhw,
        lighting_enabled,
        specular_enable,
        vertex_blend_indexed,
        preview,
        light_active_mask,
        fog_mode,
        vertex_blend_count,
    );
    number(fill_section(Section::Material, image, key, dst))
}

pub fn ff_fill_lights_section(
    image: &[u8],
    has_rhw: u8,
    lighting_enabled: u8,
    specular_enable: u8,
    vertex_blend_indexed: u8,
    preview: u8,
    light_active_mask: u8,
    fog_mode: u8,
    vertex_blend_count: u8,
    dst: &mut [u8],
) -> u32
    ensures { answer result dst.new ≡ ff_fill_section Lights image.now (key_of has_rhw lighting_enabled specular_enable vertex_blend_indexed preview light_active_mask fog_mode vertex_blend_count) dst.old }
{
    let key = key_of(
        has_rhw,
        lighting_enabled,
        specular_enable,
        vertex_blend_indexed,
        preview,
        light_active_mask,
        fog_mode,
        vertex_blend_count,
    );
    number(fill_section(Section::Lights, image, key, dst))
}

pub fn ff_fill_palette_section(
    image: &[u8],
    has_rhw: u8,
    lighting_enabled: u8,
    specular_enable: u8,
    vertex_blend_indexed: u8,
    preview: u8,
    light_active_mask: u8,
    fog_mode: u8,
    vertex_blend_count: u8,
    dst: &mut [u8],
) -> u32
    ensures { answer result dst.new ≡ ff_fill_section Palette image.now (key_of has_rhw lighting_enabled specular_enable vertex_blend_indexed preview light_active_mask fog_mode vertex_blend_count) dst.old }
{
    let key = key_of(
        has_rhw,
        lighting_enabled,
        specular_enable,
        vertex_blend_indexed,
        preview,
        light_active_mask,
        fog_mode,
        vertex_blend_count,
    );
    number(fill_section(Section::Palette, image, key, dst))
}

pub fn ff_fill_tt_section(
    image: &[u8],
    has_rhw: u8,
    lighting_enabled: u8,
    specular_enable: u8,
    vertex_blend_indexed: u8,
    preview: u8,
    light_active_mask: u8,
    fog_mode: u8,
    vertex_blend_count: u8,
    dst: &mut [u8],
) -> u32
    ensures { answer result dst.new ≡ ff_fill_section Tt image.now (key_of has_rhw lighting_enabled specular_enable vertex_blend_indexed preview light_active_mask fog_mode vertex_blend_count) dst.old }
{
    let key = key_of(
        has_rhw,
        lighting_enabled,
        specular_enable,
        vertex_blend_indexed,
        preview,
        light_active_mask,
        fog_mode,
        vertex_blend_count,
    );
    number(fill_section(Section::Tt, image, key, dst))
}

pub fn ff_fill_fog_section(
    image: &[u8],
    has_rhw: u8,
    lighting_enabled: u8,
    specular_enable: u8,
    vertex_blend_indexed: u8,
    preview: u8,
    light_active_mask: u8,
    fog_mode: u8,
    vertex_blend_count: u8,
    dst: &mut [u8],
) -> u32
    ensures { answer result dst.new ≡ ff_fill_section Fog image.now (key_of has_rhw lighting_enabled specular_enable vertex_blend_indexed preview light_active_mask fog_mode vertex_blend_count) dst.old }
{
    let key = key_of(
        has_rhw,
        lighting_enabled,
        specular_enable,
        vertex_blend_indexed,
        preview,
        light_active_mask,
        fog_mode,
        vertex_blend_count,
    );
    number(fill_section(Section::Fog, image, key, dst))
}

pub fn ff_fill_ambient_section(
    image: &[u8],
    has_rhw: u8,
    lighting_enabled: u8,
    specular_enable: u8,
    vertex_blend_indexed: u8,
    preview: u8,
    light_active_mask: u8,
    fog_mode: u8,
    vertex_blend_count: u8,
    dst: &mut [u8],
) -> u32
    ensures { answer result dst.new ≡ ff_fill_section Ambient image.now (key_of has_rhw lighting_enabled specular_enable vertex_blend_indexed preview light_active_mask fog_mode vertex_blend_count) dst.old }
{
    let key = key_of(
        has_rhw,
        lighting_enabled,
        specular_enable,
        vertex_blend_indexed,
        preview,
        light_active_mask,
        fog_mode,
        vertex_blend_count,
    );
    number(fill_section(Section::Ambient, image, key, dst))
}
