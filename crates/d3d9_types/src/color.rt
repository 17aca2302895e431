// Colours: red, green, blue and alpha. Each is four floats, as a row is: the two conversions name the fields of both, which is all that either does.
ghost use Rattle.std.specs.Prelude.{◌≡◌};
ghost use Rattle.d3d9_types.specs.Color.{color_row, row_color};

use crate::matrix::Row;

#[repr(C)]
#[derive(Clone, Copy, Debug, Default, PartialEq)]
pub struct D3DCOLORVALUE {
    pub r: f32,
    pub g: f32,
    pub b: f32,
    pub a: f32,
}

impl From<D3DCOLORVALUE> for Row {
    ghost from_gives = { λ c v. v ≡ color_row c };

    fn from(c: D3DCOLORVALUE) -> Row {
        Row {
            x: c.r,
            y: c.g,
            z: c.b,
            w: c.a,
        }
    }
}

impl From<Row> for D3DCOLORVALUE {
    ghost from_gives = { λ v c. c ≡ row_color v };

    fn from(v: Row) -> D3DCOLORVALUE {
        D3DCOLORVALUE {
            r: v.x,
            g: v.y,
            b: v.z,
            a: v.w,
        }
    }
}
