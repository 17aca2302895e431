// Positions and directions, three floats each.
ghost use Rattle.codec.specs.Vector.{vector_at, vector_bytes};
ghost use Rattle.codec.specs.Sizes.{length-vector_bytes};

use crate::storage::Stored;
use d3d9_types::D3DVECTOR;

impl Stored for D3DVECTOR {
    const SIZE: usize = 12;

    ghost SIZE = { 12 };

    ghost bytes = { vector_bytes };

    ghost at = { vector_at };

    ghost wide = { length-vector_bytes };

    #[tactic(auto, unfolding(crate::specs::Vector::vector_at))]
    fn read(s: &[u8], from: usize) -> D3DVECTOR {
        D3DVECTOR {
            x: f32::read(s, from),
            y: f32::read(s, from + 4),
            z: f32::read(s, from + 8),
        }
    }

    #[tactic(auto, unfolding(crate::specs::Vector::vector_bytes))]
    fn put(self, dst: &mut [u8], from: usize) {
        self.x.put(dst, from);
        self.y.put(dst, from + 4);
        self.z.put(dst, from + 8);
    }
}
