// Transforms, 64 bytes each.
ghost use Rattle.std.specs.Prelude.{◌≡◌};
ghost use Rattle.calls.specs.Answer.{answer};
ghost use Rattle.transform_calls.specs.Transforms.{ff_set_transform, ff_multiply_transform, ff_transform, ff_world_palette_used, ff_world_view_projection};

use calls::{number, put_number};

pub fn ff_set_transform(image: &mut [u8], state: u32, matrix: &[u8]) -> u32
    ensures { answer result image.new ≡ ff_set_transform image.old state matrix.now }
{
    number(transform_calls::set_transform(image, state, matrix))
}

pub fn ff_multiply_transform(image: &mut [u8], state: u32, matrix: &[u8]) -> u32
    ensures { answer result image.new ≡ ff_multiply_transform image.old state matrix.now }
{
    number(transform_calls::multiply_transform(image, state, matrix))
}

pub fn ff_transform(image: &[u8], state: u32, out: &mut [u8]) -> u32
    ensures { answer result out.new ≡ ff_transform image.now state out.old }
{
    number(transform_calls::transform(image, state, out))
}

pub fn ff_world_palette_used(image: &[u8], out: &mut u32) -> u32
    ensures { answer result out.new ≡ ff_world_palette_used image.now out.old }
{
    put_number(transform_calls::world_palette_used(image), out)
}

pub fn ff_world_view_projection(image: &[u8], out: &mut [u8]) -> u32
    ensures { answer result out.new ≡ ff_world_view_projection image.now out.old }
{
    number(transform_calls::world_view_projection(image, out))
}
