// The six rows of a light, and of lights one behind the other.
ghost use Rattle.std.specs.Prelude.{◌≡◌, ◌+◌, ◌*◌, ◌≤◌, length, take};
ghost use Rattle.std.proofs.lemmas.List.Edits.{sets};
ghost use Rattle.rows.specs.Rows.{floats};
ghost use Rattle.light_rows.specs.Light.{rgb_row, xyz_row, kind_of, light_rows, six_rows, lights_rows};

use crate::cone::cone_of;
use crate::floor::floored;
use d3d9_types::{
    D3DCOLORVALUE, D3DLIGHT_DIRECTIONAL, D3DLIGHT_SPOT, D3DLIGHT9, D3DMATRIX, D3DVECTOR, Row,
};
use directions::unit_direction;
use matrix::{view_transform_dir, view_transform_point};
use rows::write_rows;

#[derive(Clone, Copy)]
pub struct LightRows {
    pub position: Row,
    pub direction: Row,
    pub diffuse: Row,
    pub ambient: Row,
    pub attenuations: Row,
    pub specular: Row,
}

fn rgb_row(c: D3DCOLORVALUE, w: f32) -> Row
    ensures { result ≡ rgb_row c w }
{
    Row {
        x: c.r,
        y: c.g,
        z: c.b,
        w,
    }
}

// No plainer as one function with `rgb_row`: a trait over both records would list their fields again, in two impls.
fn xyz_row(v: D3DVECTOR, w: f32) -> Row
    ensures { result ≡ xyz_row v w }
{
    Row {
        x: v.x,
        y: v.y,
        z: v.z,
        w,
    }
}

// The type as the shader reads it: a number of the record, any u32, to a float of a row.
#[tactic(auto, using(crate::proofs::Literals::one_is, crate::proofs::Literals::two_is, crate::proofs::Literals::three_is), unfolding(crate::specs::Light::kind_of))]
fn kind_of(kind: u32) -> f32
    ensures { result ≡ kind_of kind }
{
    match kind {
        D3DLIGHT_DIRECTIONAL => 3.0,
        D3DLIGHT_SPOT => 2.0,
        _ => 1.0,
    }
}

#[tactic(auto, unfolding(crate::specs::Light::light_rows))]
fn light_rows(view: D3DMATRIX, l: D3DLIGHT9) -> LightRows
    ensures { result ≡ light_rows view l }
{
    let position = view_transform_point(view, l.position);
    let direction = unit_direction(view_transform_dir(view, l.direction));
    let cone = cone_of(l.type_, l.theta, l.phi);
    LightRows {
        position: xyz_row(position, kind_of(l.type_)),
        direction: xyz_row(direction, floored(l.falloff)),
        diffuse: rgb_row(l.diffuse, l.specular.a),
        ambient: rgb_row(l.ambient, cone.offset),
        attenuations: Row {
            x: l.attenuation0,
            y: l.attenuation1,
            z: l.attenuation2,
            w: l.range,
        },
        specular: rgb_row(l.specular, cone.scale),
    }
}

fn write_light(dst: &mut [f32], at: usize, rows: LightRows)
    requires { at + 24 ≤ length dst.old }
    ensures { dst.new ≡ sets dst.old at (floats (six_rows rows)) }
{
    let six = [
        rows.position,
        rows.direction,
        rows.diffuse,
        rows.ambient,
        rows.attenuations,
        rows.specular,
    ];
    write_rows(dst, at, &six);
}

// A loop of its own: `write_rows` of `rows` says why.
pub fn write_lights(dst: &mut [f32], view: D3DMATRIX, lights: &[D3DLIGHT9])
    requires { length dst.old ≡ 24 * length lights.now }
    ensures { dst.new ≡ floats (lights_rows view lights.now) }
{
    for (i, light) in lights.iter().enumerate() {
        write_light(dst, 24 * i, light_rows(view, *light));
    }
}
