// An entry of the table of lights from index 8 on.
ghost use Rattle.std.specs.Prelude.{◌≡◌};
ghost use Rattle.light_table.specs.Entry.{zero_light};

use d3d9_types::{D3DCOLORVALUE, D3DLIGHT9, D3DVECTOR};

// A light beyond the eight slots. It is enabled by any number but 0: a u32, as the image and C have it.
#[repr(C)]
#[derive(Clone, Copy)]
pub struct OverflowLight {
    pub index: u32,
    pub enabled: u32,
    pub light: D3DLIGHT9,
}

// The light of an unused entry: every number 0. The default light differs in these three.
#[tactic(auto, unfolding(crate::specs::Entry::zero_light, d3d9_types::specs::Light::default_light))]
pub fn zero_light() -> D3DLIGHT9
    ensures { result ≡ zero_light }
{
    D3DLIGHT9 {
        type_: 0,
        diffuse: D3DCOLORVALUE::default(),
        direction: D3DVECTOR::default(),
        ..D3DLIGHT9::default()
    }
}
