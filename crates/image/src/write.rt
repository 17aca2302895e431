// A state written as an image. Document 01, 'State image'.
ghost use Rattle.std.specs.Prelude.{◌≡◌, Some};
ghost use Rattle.image.specs.Write.{wrong_length_text, write_outcome, write_image};

use codec::Stored;
use ff_state::FfState;
use image_lists::put_list;
use image_reasons::IMAGE_LENGTH;
use std::error::Error;
use std::fmt;

// The destination is not as long as an image; it is left as it was.
#[derive(Clone, Copy, Debug, PartialEq, Eq)]
pub struct WrongLength;

impl fmt::Display for WrongLength {
    ghost output = { λ _. Some wrong_length_text };

    fn fmt<W: fmt::Write>(&self, f: &mut fmt::Formatter<W>) -> fmt::Result {
        f.write_str("the destination is not as long as an image")
    }
}

impl Error for WrongLength {}

pub fn write_image(s: FfState, dst: &mut [u8]) -> Result<(), WrongLength>
    ensures { write_outcome result dst.new ≡ write_image s dst.old }
{
    if dst.len() != IMAGE_LENGTH {
        return Err(WrongLength);
    }
    let palette = s.world_palette;
    let textures = s.texture_transforms;
    let lights = s.lights;
    let entries = s.overflow_lights;
    s.view.put(dst, 0);
    s.projection.put(dst, 64);
    put_list(dst, 128, &palette);
    put_list(dst, 16_512, &textures);
    s.material.put(dst, 17_024);
    put_list(dst, 17_092, &lights);
    s.light_enabled.put(dst, 17_924);
    s.light_defined_mask.put(dst, 17_925);
    s.ff_vs_dirty.put(dst, 17_926);
    0u8.put(dst, 17_927);
    s.world_palette_high_water.put(dst, 17_928);
    s.overflow_count.put(dst, 17_930);
    put_list(dst, 17_932, &entries);
    s.render_states.put(dst, 24_204);
    u32::from(s.tt_active_mask).put(dst, 24_220);
    Ok(())
}
