// The row of fog: zeros in mode 0, so that the row is defined whatever the draw reads.
ghost use Rattle.std.specs.Prelude.{◌≡◌, length};
ghost use Rattle.rows.specs.Rows.{floats};
ghost use Rattle.rows.specs.Fog.{fog_row, fog_rows};

use crate::write::write_row;
use d3d9_types::{RenderStates, Row};

#[tactic(auto, using(d3d9_types::proofs::Literals::zero_is), unfolding(crate::specs::Fog::fog_row))]
fn fog_row(mode: u8, states: RenderStates) -> Row
    ensures { result ≡ fog_row mode states.fog_start states.fog_end states.fog_density }
{
    if mode == 0 {
        return Row::default();
    }
    Row {
        x: states.fog_start,
        y: states.fog_end,
        z: states.fog_density,
        w: 0.0,
    }
}

#[tactic(auto, using(crate::proofs::Floats::one_row))]
pub fn write_fog(dst: &mut [f32], mode: u8, states: RenderStates)
    requires { length dst.old ≡ 4 }
    ensures { dst.new ≡ floats (fog_rows mode states.fog_start states.fog_end states.fog_density) }
{
    write_row(dst, 0, fog_row(mode, states));
}
