// Fog and the ambient colour, 16 bytes: four fields, as a row has (see there).
ghost use Rattle.codec.specs.RenderStates.{states_at, states_bytes};
ghost use Rattle.codec.specs.Sizes.{length-states_bytes};

use crate::storage::Stored;
use d3d9_types::RenderStates;

impl Stored for RenderStates {
    const SIZE: usize = 16;

    ghost SIZE = { 16 };

    ghost bytes = { states_bytes };

    ghost at = { states_at };

    ghost wide = { length-states_bytes };

    #[tactic(auto, unfolding(crate::specs::RenderStates::states_at))]
    fn read(s: &[u8], from: usize) -> RenderStates {
        RenderStates {
            fog_start: f32::read(s, from),
            fog_end: f32::read(s, from + 4),
            fog_density: f32::read(s, from + 8),
            ambient: u32::read(s, from + 12),
        }
    }

    #[tactic(auto, unfolding(crate::specs::RenderStates::states_bytes))]
    fn put(self, dst: &mut [u8], from: usize) {
        self.fog_start.put(dst, from);
        self.fog_end.put(dst, from + 4);
        self.fog_density.put(dst, from + 8);
        self.ambient.put(dst, from + 12);
    }
}
