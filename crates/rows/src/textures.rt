// The matrices of the texture stages.
ghost use Rattle.std.specs.Prelude.{◌≡◌, ◌*◌, length};
ghost use Rattle.rows.specs.Rows.{floats, rows_of};
ghost use Rattle.rows.specs.Matrices.{projection_rows};

use crate::write::write_matrix;
use d3d9_types::D3DMATRIX;
use matrix::transpose;

// `texture_rows` are those up to the mask's highest bit. A loop of its own: see `write_rows`.
pub fn write_textures(dst: &mut [f32], textures: &[D3DMATRIX])
    requires { length dst.old ≡ 16 * length textures.now }
    ensures { dst.new ≡ floats (rows_of projection_rows textures.now) }
{
    for (i, texture) in textures.iter().enumerate() {
        write_matrix(dst, 16 * i, transpose(*texture));
    }
}
