// How many rows each section has under a key, and how many a draw reads. `host_c` has a C name for each, and .ci/exports holds each to the function of its name here.
ghost use Rattle.std.specs.Prelude.{◌≡◌};
ghost use Rattle.calls.specs.Answer.{answer};
ghost use Rattle.sections.specs.declared.sections.Section.TheVariants.{Wv, Proj, Material, Lights, Palette, Tt, Fog, Ambient};
ghost use Rattle.pack_calls.specs.Key.{key_of};
ghost use Rattle.pack_calls.specs.RowCounts.{ff_section_rows, host_row_count};

use calls::put_number;
use pack_calls::{key_of, section_rows, vs_row_count};
use sections::Section;

pub fn ff_vs_row_count(
    image: &[u8],
    has_rhw: u8,
    lighting_enabled: u8,
    specular_enable: u8,
    vertex_blend_indexed: u8,
    preview: u8,
    light_active_mask: u8,
    fog_mode: u8,
    vertex_blend_count: u8,
    out: &mut u32,
) -> u32
    ensures { answer result out.new ≡ host_row_count image.now (key_of has_rhw lighting_enabled specular_enable vertex_blend_indexed preview light_active_mask fog_mode vertex_blend_count) out.old }
{
    let key = key_of(
        has_rhw,
        lighting_enabled,
        specular_enable,
        vertex_blend_indexed,
        preview,
        light_active_mask,
        fog_mode,
        vertex_blend_count,
    );
    put_number(vs_row_count(image, key), out)
}

pub fn ff_wv_section_rows(
    image: &[u8],
    has_rhw: u8,
    lighting_enabled: u8,
    specular_enable: u8,
    vertex_blend_indexed: u8,
    preview: u8,
    light_active_mask: u8,
    fog_mode: u8,
    vertex_blend_count: u8,
    out: &mut u32,
) -> u32
    ensures { answer result out.new ≡ ff_section_rows Wv image.now (key_of has_rhw lighting_enabled specular_enable vertex_blend_indexed preview light_active_mask fog_mode vertex_blend_count) out.old }
{
    let key = key_of(
        has_rhw,
        lighting_enabled,
        specular_enable,
        vertex_blend_indexed,
        preview,
        light_active_mask,
        fog_mode,
        vertex_blend_count,
    );
    put_number(section_rows(Section::Wv, image, key), out)
}

pub fn ff_proj_section_rows(
    image: &[u8],
    has_rhw: u8,
    lighting_enabled: u8,
    specular_enable: u8,
    vertex_blend_indexed: u8,
    preview: u8,
    light_active_mask: u8,
    fog_mode: u8,
    vertex_blend_count: u8,
    out: &mut u32,
) -> u32
    ensures { answer result out.new ≡ ff_section_rows Proj image.now (key_of has_rhw lighting_enabled specular_enable vertex_blend_indexed preview light_active_mask fog_mode vertex_blend_count) out.old }
{
    let key = key_of(
        has_rhw,
        lighting_enabled,
        specular_enable,
        vertex_blend_indexed,
        preview,
        light_active_mask,
        fog_mode,
        vertex_blend_count,
    );
    put_number(section_rows(Section::Proj, image, key), out)
}

pub fn ff_material_section_rows(
    image: &[u8],
    has_rhw: u8,
    lighting_enabled: u8,
    specular_enable: u8,
    vertex_blend_indexed: u8,
    preview: u8,
    light_active_mask: u8,
    fog_mode: u8,
    vertex_blend_count: u8,
    out: &mut u32,
) -> u32
    ensures { answer result out.new ≡ ff_section_rows Material image.now (key_of has_rhw lighting_enabled specular_enable vertex_blend_indexed preview light_active_mask fog_mode vertex_blend_count) out.old }
{
    let key = key_of(
        has_rhw,
        lighting_enabled,
        specular_enable,
        vertex_blend_indexed,
        preview,
        light_active_mask,
        fog_mode,
        vertex_blend_count,
    );
    put_number(section_rows(Section::Material, image, key), out)
}

pub fn ff_lights_section_rows(
    image: &[u8],
    has_rhw: u8,
    lighting_enabled: u8,
    specular_enable: u8,
    vertex_blend_indexed: u8,
    preview: u8,
    light_active_mask: u8,
    fog_mode: u8,
    vertex_blend_count: u8,
    out: &mut u32,
) -> u32
    ensures { answer result out.new ≡ ff_section_rows Lights image.now (key_of has_rhw lighting_enabled specular_enable vertex_blend_indexed preview light_active_mask fog_mode vertex_blend_count) out.old }
{
    let key = key_of(
        has_rhw,
        lighting_enabled,
        specular_enable,
        vertex_blend_indexed,
        preview,
        light_active_mask,
        fog_mode,
        vertex_blend_count,
    );
    put_number(section_rows(Section::Lights, image, key), out)
}

pub fn ff_palette_section_rows(
    image: &[u8],
    has_rhw: u8,
    lighting_enabled: u8,
    specular_enable: u8,
    vertex_blend_indexed: u8,
    preview: u8,
    light_active_mask: u8,
    fog_mode: u8,
    vertex_blend_count: u8,
    out: &mut u32,
) -> u32
    ensures { answer result out.new ≡ ff_section_rows Palette image.now (key_of has_rhw lighting_enabled specular_enable vertex_blend_indexed preview light_active_mask fog_mode vertex_blend_count) out.old }
{
    let key = key_of(
        has_rhw,
        lighting_enabled,
        specular_enable,
        vertex_blend_indexed,
        preview,
        light_active_mask,
        fog_mode,
        vertex_blend_count,
    );
    put_number(section_rows(Section::Palette, image, key), out)
}

pub fn ff_tt_section_rows(
    image: &[u8],
    has_rhw: u8,
    lighting_enabled: u8,
    specular_enable: u8,
    vertex_blend_indexed: u8,
    preview: u8,
    light_active_mask: u8,
    fog_mode: u8,
    vertex_blend_count: u8,
    out: &mut u32,
) -> u32
    ensures { answer result out.new ≡ ff_section_rows Tt image.now (key_of has_rhw lighting_enabled specular_enable vertex_blend_indexed preview light_active_mask fog_mode vertex_blend_count) out.old }
{
    let key = key_of(
        has_rhw,
        lighting_enabled,
        specular_enable,
        vertex_blend_indexed,
        preview,
        light_active_mask,
        fog_mode,
        vertex_blend_count,
    );
    put_number(section_rows(Section::Tt, image, key), out)
}

pub fn ff_fog_section_rows(
    image: &[u8],
    has_rhw: u8,
    lighting_enabled: u8,
    specular_enable: u8,
    vertex_blend_indexed: u8,
    preview: u8,
    light_active_mask: u8,
    fog_mode: u8,
    vertex_blend_count: u8,
    out: &mut u32,
) -> u32
    ensures { answer result out.new ≡ ff_section_rows Fog image.now (key_of has_rhw lighting_enabled specular_enable vertex_blend_indexed preview light_active_mask fog_mode vertex_blend_count) out.old }
{
    let key = key_of(
        has_rhw,
        lighting_enabled,
        specular_enable,
        vertex_blend_indexed,
        preview,
        light_active_mask,
        fog_mode,
        vertex_blend_count,
    );
    put_number(section_rows(Section::Fog, image, key), out)
}

pub fn ff_ambient_section_rows(
    image: &[u8],
    has_rhw: u8,
    lighting_enabled: u8,
    specular_enable: u8,
    vertex_blend_indexed: u8,
    preview: u8,
    light_active_mask: u8,
    fog_mode: u8,
    vertex_blend_count: u8,
    out: &mut u32,
) -> u32
    ensures { answer result out.new ≡ ff_section_rows Ambient image.now (key_of has_rhw lighting_enabled specular_enable vertex_blend_indexed preview light_active_mask fog_mode vertex_blend_count) out.old }
{
    let key = key_of(
        has_rhw,
        lighting_enabled,
        specular_enable,
        vertex_blend_indexed,
        preview,
        light_active_mask,
        fog_mode,
        vertex_blend_count,
    );
    put_number(section_rows(Section::Ambient, image, key), out)
}
