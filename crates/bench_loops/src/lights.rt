// What a key is made from, read of lights at any index: below 8 a slot, from 8 on an entry of the table.
use ff_lights::{set_light_enabled_at, vs_source_light_inputs};
use ff_state::FfState;
use words::with_bit;

fn enable_one(s: FfState, index: u32) -> FfState {
    set_light_enabled_at(s, index, true).unwrap_or(s)
}

// The state with one of the slots 0 to 3 switched, another at each turn: without a change a read could
// be taken out of the loop. It stores the mask, so that no call but the read is timed.
fn switched(s: FfState, i: u32) -> FfState {
    let mut t = s;
    let mask = with_bit(t.light_enabled, i % 4, i / 4 % 2 == 1);
    t.light_enabled = mask;
    t
}

fn enabled_lights(index: u32) -> FfState {
    let slots = (0..4).fold(FfState::new(), enable_one);
    enable_one(slots, index)
}

// Of lights 0 to 3 and `index`.
#[unsafe(no_mangle)]
pub extern "C" fn bench_vs_source_light_inputs(n: u32, index: u32) -> u32 {
    let mut s = enabled_lights(index);
    let mut sum = 0u32;
    for i in 0..n {
        s = switched(s, i);
        sum = sum.wrapping_add(vs_source_light_inputs(s));
    }
    sum
}
