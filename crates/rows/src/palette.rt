// The world matrices of the palette, each times the view.
ghost use Rattle.std.specs.Prelude.{◌≡◌, ◌*◌, length};
ghost use Rattle.rows.specs.Rows.{floats};
ghost use Rattle.rows.specs.Matrices.{palette_rows};

use crate::write::write_matrix;
use d3d9_types::D3DMATRIX;
use matrix::{mat_mul, transpose};

// Why this loop and those of the textures and the lights are not one stands at `write_rows`.
pub fn write_palette(dst: &mut [f32], view: D3DMATRIX, palette: &[D3DMATRIX])
    requires { length dst.old ≡ 16 * length palette.now }
    ensures { dst.new ≡ floats (palette_rows view palette.now) }
{
    for (i, world) in palette.iter().enumerate() {
        write_matrix(dst, 16 * i, transpose(mat_mul(*world, view)));
    }
}
