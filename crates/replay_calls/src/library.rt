// The calls of the library, on the running things.
ghost use Rattle.std.specs.Prelude.{◌≡◌};
ghost use Rattle.calls.specs.Answer.{answer};
ghost use Rattle.calls.specs.Refusal.{code, value_or};
ghost use Rattle.replay_images.specs.Machine.{done};
ghost use Rattle.replay_calls.specs.Made.{machine_of, made, numbered, set_field};

use crate::call::{Call, Field};
use crate::names::{key_of, section_of, within};
use calls::Refusal;
use replay_text::Unanswered;

// Answers the number that the call was lent: 0 where none.
// The four are lent one by one: with the machine, tried, a call on a part of its item got no proof.
pub fn make(
    call: Call,
    a: u32,
    b: u32,
    image: &mut [u8],
    item: &mut [u8],
    key: &[u8; 8],
    mirror: &mut [u8],
) -> Result<u32, Unanswered>
    ensures { done result (machine_of image.new item.new key.now mirror.new) ≡ made call a b (machine_of image.old item.old key.now mirror.old) }
{
    // How many bytes of each are lent, if it has as many.
    let of_image = within(b, image.len());
    let of_item = within(b, item.len());
    let of_mirror = within(b, mirror.len());
    match call {
        Call::ImageFresh => accepted(calls::image_fresh(&mut image[..of_image?])),
        Call::ImageCheck => accepted(calls::image_check(&image[..of_image?])),
        Call::SetTransform => accepted(transform_calls::set_transform(image, a, &item[..of_item?])),
        Call::MultiplyTransform => accepted(transform_calls::multiply_transform(
            image,
            a,
            &item[..of_item?],
        )),
        Call::Transform => accepted(transform_calls::transform(image, a, &mut item[..of_item?])),
        Call::WorldPaletteUsed => told(transform_calls::world_palette_used(image)),
        Call::WorldViewProjection => accepted(transform_calls::world_view_projection(
            image,
            &mut item[..of_item?],
        )),
        Call::SetMaterial => accepted(calls::set_material(image, &item[..of_item?])),
        Call::Material => accepted(calls::material(image, &mut item[..of_item?])),
        Call::SetLightAt => accepted(light_calls::set_light_at(image, a, &item[..of_item?])),
        Call::SetLightEnabledAt => accepted(light_calls::set_light_enabled_at(image, a, b)),
        Call::GetLightAt => accepted(light_calls::get_light_at(image, a, &mut item[..of_item?])),
        Call::IsLightEnabledAt => told(light_calls::is_light_enabled_at(image, a)),
        Call::IsLightDefinedAt => told(light_calls::is_light_defined_at(image, a)),
        Call::VsSourceLightInputs => told(light_calls::vs_source_light_inputs(image)),
        Call::CompactedLightMasks => told(light_calls::compacted_light_masks(image)),
        Call::MarkFfVsDirty => accepted(calls::mark_ff_vs_dirty(image, a)),
        Call::TakeFfVsDirty => told(calls::take_ff_vs_dirty(image)),
        Call::SetField => accepted(set_field(Field::try_from(a)?, b, image)),
        Call::Refresh => told(refresh_calls::refresh(
            image,
            key_of(key),
            &mut mirror[..of_mirror?],
        )),
        Call::FillSection => accepted(pack_calls::fill_section(
            section_of(a)?,
            image,
            key_of(key),
            &mut mirror[..of_mirror?],
        )),
        Call::SectionRows if a == 0 => told(pack_calls::vs_row_count(image, key_of(key))),
        Call::SectionRows => told(pack_calls::section_rows(section_of(a)?, image, key_of(key))),
    }
}

// The number that a call was lent, or that of its refusal.
fn told(answer: Result<u32, Refusal>) -> Result<u32, Unanswered>
    ensures { result ≡ numbered (code answer) (value_or 0 answer) }
{
    answer.map_err(|refusal| Unanswered::Refused(u32::from(refusal)))
}

// A call that is lent no number tells 0.
fn accepted(answer: Result<(), Refusal>) -> Result<u32, Unanswered>
    ensures { result ≡ numbered (code answer) 0 }
{
    told(answer.map(|()| 0))
}

fn set_field(field: Field, w: u32, image: &mut [u8]) -> Result<(), Refusal>
    ensures { answer (code result) image.new ≡ set_field field w image.old }
{
    match field {
        Field::FogStart => calls::set_fog_start(image, w),
        Field::FogEnd => calls::set_fog_end(image, w),
        Field::FogDensity => calls::set_fog_density(image, w),
        Field::Ambient => calls::set_ambient(image, w),
        Field::TextureMask => calls::set_texture_mask(image, (w % 256) as u8),
    }
}
