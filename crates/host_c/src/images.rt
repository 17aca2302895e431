// State images: the fresh one, and whether one can be read.
ghost use Rattle.std.specs.Prelude.{◌≡◌};
ghost use Rattle.calls.specs.Answer.{answer};
ghost use Rattle.calls.specs.Images.{ff_image_fresh, ff_image_check};

#[unsafe(no_mangle)]
pub extern "C" fn ff_image_fresh(image: &mut [u8]) -> u32
    ensures { answer result image.new ≡ ff_image_fresh image.old }
{
    host::images::ff_image_fresh(image)
}

#[unsafe(no_mangle)]
pub extern "C" fn ff_image_check(image: &[u8]) -> u32
    ensures { result ≡ ff_image_check image.now }
{
    host::images::ff_image_check(image)
}
