// A D3DCOLOR as four floats, and the row of the ambient colour.
ghost use Rattle.std.specs.Prelude.{◌≡◌, length};
ghost use Rattle.rows.specs.Rows.{floats};
ghost use Rattle.rows.specs.Ambient.{over_full, rgba_of, ambient_rows};

use crate::write::write_row;
use d3d9_types::Row;

#[tactic(auto, using(crate::proofs::Literals::full_is), unfolding(crate::specs::Ambient::over_full))]
fn over_full(byte: u8) -> f32
    ensures { result ≡ over_full byte }
{
    f32::from(byte) / 255.0
}

#[tactic(auto, unfolding(crate::specs::Ambient::rgba_of))]
pub fn d3dcolor_to_rgba_f32(color: u32) -> Row
    ensures { result ≡ rgba_of color }
{
    let [b, g, r, a] = color.to_le_bytes();
    Row {
        x: over_full(r),
        y: over_full(g),
        z: over_full(b),
        w: over_full(a),
    }
}

#[tactic(auto, using(crate::proofs::Floats::one_row))]
pub fn write_ambient(dst: &mut [f32], color: u32)
    requires { length dst.old ≡ 4 }
    ensures { dst.new ≡ floats (ambient_rows color) }
{
    write_row(dst, 0, d3dcolor_to_rgba_f32(color));
}
