// The colours of a material, and its power.
ghost use Rattle.std.specs.Prelude.{◌≡◌, true, false, ◌*◌, ◌≤◌, length};
ghost use Rattle.std.proofs.lemmas.List.Edits.{sets};
ghost use Rattle.rows.specs.Rows.{floats};
ghost use Rattle.rows.specs.Material.{material_rows};

use crate::write::{write_row, write_rows};
use d3d9_types::{D3DMATERIAL9, Row};

// The four colours.
#[tactic(auto, unfolding(crate::specs::Material::material_rows))]
fn write_colors(dst: &mut [f32], m: D3DMATERIAL9)
    requires { 16 ≤ length dst.old }
    ensures { dst.new ≡ sets dst.old 0 (floats (material_rows true false m)) }
{
    let colors = [
        Row::from(m.diffuse),
        Row::from(m.ambient),
        Row::from(m.specular),
        Row::from(m.emissive),
    ];
    write_rows(dst, 0, &colors);
}

pub fn write_material(dst: &mut [f32], lit: bool, specular: bool, m: D3DMATERIAL9)
    requires { length dst.old ≡ 4 * length (material_rows lit specular m) }
    ensures { dst.new ≡ floats (material_rows lit specular m) }
{
    if !lit {
        write_row(dst, 0, Row::from(m.diffuse));
        return;
    }
    write_colors(dst, m);
    if specular {
        let power = Row {
            x: m.power,
            y: 0.0,
            z: 0.0,
            w: 0.0,
        };
        write_row(dst, 16, power);
    }
}
