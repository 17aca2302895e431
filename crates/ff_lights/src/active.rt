// The active lights of a state.
ghost use Rattle.std.specs.Prelude.{◌≡◌, ◌≤◌};
ghost use Rattle.sections.specs.Key.{light_limit};
ghost use Rattle.ff_state.specs.Active.{light_active_mask, resolve_active_lights, compacted_light_masks, vs_source_light_inputs};

use ff_state::FfState;
use light_table::{ActiveLights, LightMasks, active_lights, four_bytes, masks_of, used_count};
use sections::{FfVsKey, light_limit};

// The active slots, by their own numbers.
#[tactic(auto, unfolding(ff_state::specs::Active::light_active_mask))]
pub fn light_active_mask(s: FfState) -> u8
    ensures { result ≡ light_active_mask s }
{
    s.light_set_mask & s.light_enabled
}

// The first `limit` of the active lights. Parts are taken out, the entries only where one is used: where they were lent, the whole state was copied, and the
// inputs of a key by value took 680 ns in place of 12 (lights in slots) and 880 in place of 220 (one from index 8 on).
#[tactic(auto, unfolding(ff_state::specs::Active::resolve_active_lights, ff_state::specs::Active::active_lights))]
fn first_active(s: FfState, limit: usize) -> ActiveLights
    requires { limit ≤ 8 }
    ensures { result ≡ resolve_active_lights s limit }
{
    let mask = light_active_mask(s);
    let in_use = used_count(s.overflow_count);
    let lights = s.lights;
    if in_use == 0 {
        return active_lights(&lights, mask, &[], limit);
    }
    let entries = s.overflow_lights;
    active_lights(&lights, mask, &entries[..in_use], limit)
}

// The active lights that are packed under a key.
#[tactic(auto, using(sections::proofs::Shape::limit_small))]
pub fn resolve_active_lights(s: FfState, key: FfVsKey) -> ActiveLights
    ensures { result ≡ resolve_active_lights s (light_limit key) }
{
    first_active(s, light_limit(key))
}

// The same of a state that is lent.
pub fn active_of(s: &FfState, key: FfVsKey) -> ActiveLights
    ensures { result ≡ resolve_active_lights s.now (light_limit key) }
{
    resolve_active_lights(*s, key)
}

// The masks of the first eight.
#[tactic(auto, using(light_table::proofs::Compaction::listed_len, light_table::proofs::Compaction::listed_front), unfolding(ff_state::specs::Active::resolve_active_lights, ff_state::specs::Active::compacted_light_masks))]
pub fn compacted_light_masks(s: FfState) -> LightMasks
    ensures { result ≡ compacted_light_masks s }
{
    let list = first_active(s, 8);
    masks_of(&list.lights[..list.len])
}

// What a key is made from: the raw masks while no overflow light is stored, else the compacted ones and 1.
#[tactic(auto, unfolding(ff_state::specs::Active::vs_source_light_inputs))]
pub fn vs_source_light_inputs(s: FfState) -> u32
    ensures { result ≡ vs_source_light_inputs s }
{
    if s.overflow_count == 0 {
        let active = light_active_mask(s);
        let directional = s.light_directional_mask & active;
        let spot = s.light_spot_mask & active;
        return four_bytes(active, directional, spot, 0);
    }
    let masks = compacted_light_masks(s);
    four_bytes(masks.active, masks.directional, masks.spot, 1)
}
