// A state read from an image. Document 01, 'State image'.
ghost use Rattle.std.specs.Prelude.{◌≡◌, ◌≤◌, Some, length};
ghost use Rattle.image_reasons.specs.Length.{image_length};
ghost use Rattle.ff_state.specs.declared.state.FfState.{FfState};
ghost use Rattle.image.specs.Read.{not_an_image_text, state_of, read_outcome, read_image};

use codec::Stored;
use d3d9_types::{D3DLIGHT_DIRECTIONAL, D3DLIGHT_SPOT, D3DMATERIAL9, D3DMATRIX, RenderStates};
use ff_state::FfState;
use image_lists::{list_at, set_mask, type_mask};
use image_reasons::image_refused;
use std::error::Error;
use std::fmt;

// Some reason to refuse the bytes holds.
#[derive(Clone, Copy, Debug, PartialEq, Eq)]
pub struct NotAnImage;

impl fmt::Display for NotAnImage {
    ghost output = { λ _. Some not_an_image_text };

    fn fmt<W: fmt::Write>(&self, f: &mut fmt::Formatter<W>) -> fmt::Result {
        f.write_str("the bytes are no image of a state")
    }
}

impl Error for NotAnImage {}

// The state that an image's bytes say, whether or not they are refused. Only crates of this repository
// call it, after `image_refused`.
pub fn state_of(bytes: &[u8]) -> FfState
    requires { image_length ≤ length bytes.now }
    ensures { result ≡ state_of bytes.now }
{
    let lights = list_at(bytes, 17_092);
    let defined = u8::read(bytes, 17_925);
    let set = set_mask(defined, lights);
    let directional = type_mask(D3DLIGHT_DIRECTIONAL, defined, lights);
    let spot = type_mask(D3DLIGHT_SPOT, defined, lights);
    FfState {
        view: D3DMATRIX::read(bytes, 0),
        projection: D3DMATRIX::read(bytes, 64),
        world_palette: list_at(bytes, 128),
        world_palette_high_water: u16::read(bytes, 17_928),
        texture_transforms: list_at(bytes, 16_512),
        material: D3DMATERIAL9::read(bytes, 17_024),
        lights: lights,
        light_enabled: u8::read(bytes, 17_924),
        light_set_mask: set,
        light_defined_mask: defined,
        light_directional_mask: directional,
        light_spot_mask: spot,
        overflow_lights: list_at(bytes, 17_932),
        overflow_count: u16::read(bytes, 17_930),
        ff_vs_dirty: u8::read(bytes, 17_926),
        render_states: RenderStates::read(bytes, 24_204),
        tt_active_mask: u8::read(bytes, 24_220),
    }
}

// A caller that holds a state keeps it where the bytes are refused.
#[tactic(auto, unfolding(crate::specs::Read::read_image))]
pub fn read_image(bytes: &[u8]) -> Result<FfState, NotAnImage>
    ensures { (s : FfState) → read_outcome s result ≡ read_image s bytes.now }
{
    if image_refused(bytes) {
        return Err(NotAnImage);
    }
    Ok(state_of(bytes))
}
