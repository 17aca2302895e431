// The fills of each section: a loop packs into sixteen places in turn and answers how many fills were packed: all of them, where the
// floats lent are sixteen times the section's.
ghost use Rattle.std.specs.Prelude.{◌≤◌};

use crate::inputs::{eight_spots, full_key, spread, spread_world};
use crate::turns::{one_if_packed, place};
use ff_state::FfState;
use packing::{
    PackError, fill_lights_section, fill_material_section, fill_palette_section, fill_proj_section,
    fill_wv_section,
};

// n turns, each of `floats` floats, by `fill`, which changes the state first.
fn fills<F: Fn(&mut FfState, f32, &mut [f32]) -> Result<(), PackError>>(
    n: u32,
    x: f32,
    dst: &mut [f32],
    floats: usize,
    mut s: FfState,
    fill: F,
) -> u32
    requires fill { F.IsAlwaysCallable fill }
    requires floats { floats ≤ 640 }
{
    if dst.len() != 16 * floats {
        return 0;
    }
    let mut v = x;
    let mut packed = 0u32;
    for i in 0..n {
        let at = place(i) * floats;
        let answer = fill(&mut s, v, &mut dst[at..at + floats]);
        packed = packed.wrapping_add(one_if_packed(answer));
        v = v + 1.0;
    }
    packed
}

#[unsafe(no_mangle)]
pub extern "C" fn bench_fill_wv(n: u32, x: f32, dst: &mut [f32]) -> u32 {
    let key = full_key();
    fills(n, x, dst, 16, spread_world(x), |s, v, rows| {
        s.view = spread(v);
        fill_wv_section(*s, key, rows)
    })
}

#[unsafe(no_mangle)]
pub extern "C" fn bench_fill_proj(n: u32, x: f32, dst: &mut [f32]) -> u32 {
    let key = full_key();
    fills(n, x, dst, 16, FfState::new(), |s, v, rows| {
        s.projection = spread(v);
        fill_proj_section(*s, key, rows)
    })
}

#[unsafe(no_mangle)]
pub extern "C" fn bench_fill_material(n: u32, x: f32, dst: &mut [f32]) -> u32 {
    let key = full_key();
    fills(n, x, dst, 20, FfState::new(), |s, v, rows| {
        s.material.power = v;
        fill_material_section(*s, key, rows)
    })
}

#[unsafe(no_mangle)]
pub extern "C" fn bench_fill_palette(n: u32, x: f32, dst: &mut [f32]) -> u32 {
    let key = full_key();
    fills(n, x, dst, 640, spread_world(x), |s, v, rows| {
        s.view = spread(v);
        fill_palette_section(*s, key, rows)
    })
}

#[unsafe(no_mangle)]
pub extern "C" fn bench_fill_lights(n: u32, x: f32, dst: &mut [f32]) -> u32 {
    let key = full_key();
    fills(n, x, dst, 192, eight_spots(), |s, v, rows| {
        s.view = spread(v);
        fill_lights_section(*s, key, rows)
    })
}
