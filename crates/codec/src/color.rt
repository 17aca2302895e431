// Colours, as the rows that they are.
ghost use Rattle.codec.specs.Color.{color_at, color_bytes};
ghost use Rattle.codec.specs.Sizes.{length-color_bytes};

use crate::storage::Stored;
use d3d9_types::{D3DCOLORVALUE, Row};

impl Stored for D3DCOLORVALUE {
    const SIZE: usize = 16;

    ghost SIZE = { 16 };

    ghost bytes = { color_bytes };

    ghost at = { color_at };

    ghost wide = { length-color_bytes };

    #[tactic(auto, unfolding(crate::specs::Color::color_at))]
    fn read(s: &[u8], from: usize) -> D3DCOLORVALUE {
        D3DCOLORVALUE::from(Row::read(s, from))
    }

    #[tactic(auto, unfolding(crate::specs::Color::color_bytes))]
    fn put(self, dst: &mut [u8], from: usize) {
        Row::from(self).put(dst, from);
    }
}
