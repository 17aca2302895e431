// Lights, 104 bytes each.
ghost use Rattle.std.specs.Prelude.{◌≡◌};
ghost use Rattle.calls.specs.Answer.{answer};
ghost use Rattle.light_calls.specs.Lights.{ff_set_light_at, ff_set_light_enabled_at, ff_get_light_at, ff_is_light_enabled_at, ff_is_light_defined_at, ff_vs_source_light_inputs, ff_compacted_light_masks};

use calls::{number, put_number};

pub fn ff_set_light_at(image: &mut [u8], index: u32, light: &[u8]) -> u32
    ensures { answer result image.new ≡ ff_set_light_at image.old index light.now }
{
    number(light_calls::set_light_at(image, index, light))
}

pub fn ff_set_light_enabled_at(image: &mut [u8], index: u32, enabled: u32) -> u32
    ensures { answer result image.new ≡ ff_set_light_enabled_at image.old index enabled }
{
    number(light_calls::set_light_enabled_at(image, index, enabled))
}

pub fn ff_get_light_at(image: &[u8], index: u32, out: &mut [u8]) -> u32
    ensures { answer result out.new ≡ ff_get_light_at image.now index out.old }
{
    number(light_calls::get_light_at(image, index, out))
}

pub fn ff_is_light_enabled_at(image: &[u8], index: u32, out: &mut u32) -> u32
    ensures { answer result out.new ≡ ff_is_light_enabled_at image.now index out.old }
{
    put_number(light_calls::is_light_enabled_at(image, index), out)
}

pub fn ff_is_light_defined_at(image: &[u8], index: u32, out: &mut u32) -> u32
    ensures { answer result out.new ≡ ff_is_light_defined_at image.now index out.old }
{
    put_number(light_calls::is_light_defined_at(image, index), out)
}

pub fn ff_vs_source_light_inputs(image: &[u8], out: &mut u32) -> u32
    ensures { answer result out.new ≡ ff_vs_source_light_inputs image.now out.old }
{
    put_number(light_calls::vs_source_light_inputs(image), out)
}

pub fn ff_compacted_light_masks(image: &[u8], out: &mut u32) -> u32
    ensures { answer result out.new ≡ ff_compacted_light_masks image.now out.old }
{
    put_number(light_calls::compacted_light_masks(image), out)
}
