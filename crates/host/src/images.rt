// State images: the fresh one, and whether one can be read.
ghost use Rattle.std.specs.Prelude.{◌≡◌};
ghost use Rattle.calls.specs.Answer.{answer};
ghost use Rattle.calls.specs.Images.{ff_image_fresh, ff_image_check};

use calls::number;

pub fn ff_image_fresh(image: &mut [u8]) -> u32
    ensures { answer result image.new ≡ ff_image_fresh image.old }
{
    number(calls::image_fresh(image))
}

pub fn ff_image_check(image: &[u8]) -> u32
    ensures { result ≡ ff_image_check image.now }
{
    number(calls::image_check(image))
}
