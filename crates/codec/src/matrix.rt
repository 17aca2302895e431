// Rows of four floats, and matrices of four rows. Each reads and puts its own four fields, as RenderStates does: no plainer in one place,
// which would have to name the fields of all three.
ghost use Rattle.codec.specs.Matrix.{row_at, row_bytes, matrix_at, matrix_bytes};
ghost use Rattle.codec.specs.Sizes.{length-matrix_bytes, length-row_bytes};

use crate::storage::Stored;
use d3d9_types::{D3DMATRIX, Row};

impl Stored for Row {
    const SIZE: usize = 16;

    ghost SIZE = { 16 };

    ghost bytes = { row_bytes };

    ghost at = { row_at };

    ghost wide = { length-row_bytes };

    #[tactic(auto, unfolding(crate::specs::Matrix::row_at))]
    fn read(s: &[u8], from: usize) -> Row {
        Row {
            x: f32::read(s, from),
            y: f32::read(s, from + 4),
            z: f32::read(s, from + 8),
            w: f32::read(s, from + 12),
        }
    }

    #[tactic(auto, unfolding(crate::specs::Matrix::row_bytes))]
    fn put(self, dst: &mut [u8], from: usize) {
        self.x.put(dst, from);
        self.y.put(dst, from + 4);
        self.z.put(dst, from + 8);
        self.w.put(dst, from + 12);
    }
}

impl Stored for D3DMATRIX {
    const SIZE: usize = 64;

    ghost SIZE = { 64 };

    ghost bytes = { matrix_bytes };

    ghost at = { matrix_at };

    ghost wide = { length-matrix_bytes };

    #[tactic(auto, unfolding(crate::specs::Matrix::matrix_at))]
    fn read(s: &[u8], from: usize) -> D3DMATRIX {
        D3DMATRIX {
            r0: Row::read(s, from),
            r1: Row::read(s, from + 16),
            r2: Row::read(s, from + 32),
            r3: Row::read(s, from + 48),
        }
    }

    #[tactic(auto, unfolding(crate::specs::Matrix::matrix_bytes))]
    fn put(self, dst: &mut [u8], from: usize) {
        self.r0.put(dst, from);
        self.r1.put(dst, from + 16);
        self.r2.put(dst, from + 32);
        self.r3.put(dst, from + 48);
    }
}
