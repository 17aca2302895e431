// Lists of active lights: of a type that contributes, and enabled. Packing wants them by ascending index.
ghost use Rattle.std.specs.Prelude.{◌≡◌, ◌≤◌, length, ◌++◌};
ghost use Rattle.light_table.specs.Active.{active_slots, is_active, active_overflow, listed, no_lights, pushed, push_all, kind_mask, low_bits, masks_of, four_bytes};

use crate::entry::OverflowLight;
use crate::kinds::light_type_contributes;
use d3d9_types::{D3DLIGHT_DIRECTIONAL, D3DLIGHT_SPOT, D3DLIGHT9};
use words::has_bit;

// The first `len` are used; the others are the default light: an `ArrayVec` says nothing of what is behind its items, and `listed` of specs/Active does.
// No invariant says that `len` is at most 8: it would be a field of the record, which `listed` and `pushed` there make at any limit.
// Nor has it a method for the lights in use: it would ask that `len` is at most 8, as `&list.lights[..list.len]` does where one is wanted.
#[derive(Clone, Copy)]
pub struct ActiveLights {
    pub lights: [D3DLIGHT9; 8],
    pub len: usize,
}

#[derive(Clone, Copy)]
pub struct LightMasks {
    pub active: u8,
    pub directional: u8,
    pub spot: u8,
}

fn is_active(e: &OverflowLight) -> bool
    ensures { result ≡ is_active e.now }
{
    e.enabled != 0 && light_type_contributes(e.light.type_)
}

impl ActiveLights {
    #[tactic(auto, unfolding(crate::specs::Active::no_lights))]
    fn new() -> Self
        ensures { result ≡ no_lights }
    {
        ActiveLights {
            lights: [D3DLIGHT9::default(); 8],
            len: 0,
        }
    }

    // One more, up to the limit. That it is at most 8 is asked here and by those that push: `limit.min(8)` would ask nothing, and each `ensures` would say
    // `min limit 8` where it says `limit`. Held in the list it would be a field more of what `listed` makes, and its bound an invariant. Of both sources by
    // `chain` and `take(limit)`, the items would still be put into the array and counted one by one, as here.
    #[tactic(auto, unfolding(crate::specs::Active::pushed))]
    fn push(&mut self, limit: usize, light: D3DLIGHT9)
        requires { limit ≤ 8 }
        ensures { self.new ≡ pushed limit self.old light }
    {
        if self.len < limit {
            self.lights[self.len] = light;
            self.len += 1;
        }
    }

    fn push_slots(&mut self, limit: usize, lights: &[D3DLIGHT9; 8], mask: u8)
        requires { limit ≤ 8 }
        ensures { self.new ≡ push_all limit self.old (active_slots mask lights.now) }
    {
        for (i, light) in lights.iter().enumerate() {
            if has_bit(mask, i as u32) {
                self.push(limit, *light);
            }
        }
    }

    fn push_entries(&mut self, limit: usize, entries: &[OverflowLight])
        requires { limit ≤ 8 }
        ensures { self.new ≡ push_all limit self.old (active_overflow entries.now) }
    {
        for e in entries {
            if is_active(e) {
                self.push(limit, e.light);
            }
        }
    }
}

// The first `limit` of the active lights of the slots and of the entries.
#[tactic(auto, using(crate::proofs::Compaction::pushed_two))]
pub fn active_lights(
    lights: &[D3DLIGHT9; 8],
    mask: u8,
    entries: &[OverflowLight],
    limit: usize,
) -> ActiveLights
    requires { limit ≤ 8 }
    ensures { result ≡ listed limit (active_slots mask lights.now ++ active_overflow entries.now) }
{
    let mut list = ActiveLights::new();
    list.push_slots(limit, lights, mask);
    list.push_entries(limit, entries);
    list
}

// The n lowest bits.
#[tactic(auto, unfolding(crate::specs::Active::low_bits))]
pub fn low_bits(n: usize) -> u8
    requires { n ≤ 8 }
    ensures { result ≡ low_bits n }
{
    ((1u32 << n as u32) - 1) as u8
}

// Bit i says whether light i has this type, a number of C's record.
fn kind_mask(lights: &[D3DLIGHT9], kind: u32) -> u8
    requires { length lights.now ≤ 8 }
    ensures { result ≡ kind_mask kind lights.now }
{
    let mut mask = 0u8;
    for light in lights.iter().rev() {
        mask = mask * 2 + u8::from(light.type_ == kind);
    }
    mask
}

// The masks of a list of lights: bit i is its light i.
#[tactic(auto, unfolding(crate::specs::Active::masks_of))]
pub fn masks_of(lights: &[D3DLIGHT9]) -> LightMasks
    requires { length lights.now ≤ 8 }
    ensures { result ≡ masks_of lights.now }
{
    LightMasks {
        active: low_bits(lights.len()),
        directional: kind_mask(lights, D3DLIGHT_DIRECTIONAL),
        spot: kind_mask(lights, D3DLIGHT_SPOT),
    }
}

// Four bytes as a number, the first lowest: the order of document 01. By a name, which the definition has too: two crates make such numbers.
#[tactic(auto, unfolding(crate::specs::Active::four_bytes))]
pub fn four_bytes(a: u8, b: u8, c: u8, d: u8) -> u32
    ensures { result ≡ four_bytes a b c d }
{
    u32::from_le_bytes([a, b, c, d])
}
