// The active lights that are packed under a key: their mask, and their rows.
ghost use Rattle.std.specs.Prelude.{◌≡◌, ◌*◌, length};
ghost use Rattle.light_rows.specs.Light.{lights_rows};
ghost use Rattle.rows.specs.Rows.{floats};
ghost use Rattle.packing.specs.Inputs.{packed_lights, mask_accepted, inputs_of};

use ff_lights::active_of;
use ff_state::FfState;
use light_rows::write_lights;
use light_table::low_bits;
use sections::{FfVsKey, Section};

// Only the lights' section looks at the key's light mask: it is 0, or that of the lights that are packed.
pub fn mask_accepted(section: Section, s: &FfState, key: FfVsKey) -> bool
    ensures { result ≡ mask_accepted section key (inputs_of s.now) }
{
    match section {
        Section::Lights if key.light_active_mask == 0 => true,
        Section::Lights => key.light_active_mask == low_bits(active_of(s, key).len),
        _ => true,
    }
}

// The rows of the lights that are packed.
pub fn write_active_lights(s: &FfState, key: FfVsKey, dst: &mut [f32])
    requires { length dst.old ≡ 24 * length (packed_lights key (inputs_of s.now)) }
    ensures { dst.new ≡ floats (lights_rows s.now.view (packed_lights key (inputs_of s.now))) }
{
    let list = active_of(s, key);
    let n = list.len;
    write_lights(dst, s.view, &list.lights[..n]);
}
