// Lights by any index: eight slots, then the overflow entries. `index < 8` is tested in each call: a type of the two places would be matched in each, and its slot
// would hold the index itself.
ghost use Rattle.std.specs.Prelude.{◌≡◌, ◌≤◌, ◌<◌, IfOk, IfErr, OnErr};
ghost use Rattle.std.specs.Fn.{FnOnceReturnsAtMut};
ghost use Rattle.ff_state.specs.Changed.{changed, in_place};
ghost use Rattle.ff_state.specs.Lights.{found, change_entry, has_room, set_light_at, set_light_enabled_at, get_light_at, is_light_enabled_at, is_light_defined_at};
ghost use Rattle.ff_state.specs.Lights.{insert_entry};
ghost use Rattle.light_table.specs.declared.entry.OverflowLight.{OverflowLight};

use crate::slots::{enable_slot, set_slot};
use d3d9_types::D3DLIGHT9;
use ff_state::{FfState, TableFull};
use light_table::{OverflowLight, find, insert_at, used_count};
use sections::LIGHTS;
use words::has_bit;

// Ok of where the entry of an index stands, or Err of where it would stand.
#[tactic(auto, using(ff_state::proofs::Found::stored_place, ff_state::proofs::Found::absent_place), unfolding(ff_state::specs::Lights::found))]
pub fn search(s: &FfState, index: u32) -> Result<usize, usize>
    ensures value { result ≡ found s.now index }
    ensures stored { IfOk result (λ at. at < 56) }
    ensures absent { IfErr result (λ at. at ≤ 56) }
{
    find(&s.overflow_lights[..used_count(s.overflow_count)], index)
}

// One entry more, if there is room.
#[tactic(auto, unfolding(ff_state::specs::Lights::insert_entry, ff_state::specs::Dirty::dirtied))]
fn insert_entry(s: &mut FfState, at: usize, e: OverflowLight) -> Result<(), TableFull>
    ensures left { in_place result s.new ≡ insert_entry s.old at e }
    ensures kept { OnErr result (s.new ≡ s.old) }
{
    let in_use = used_count(s.overflow_count);
    if in_use < 56 && at < 56 {
        insert_at(&mut s.overflow_lights, at, e);
        s.overflow_count = (in_use + 1) as u16;
        s.mark_sections(LIGHTS);
        return Ok(());
    }
    Err(TableFull)
}

// A light beyond the slots: an entry that is stored is changed, and one that is not is made.
#[tactic(auto, unfolding(ff_state::specs::Lights::change_entry, ff_state::specs::Lights::replace_entry, ff_state::specs::Dirty::dirtied))]
fn change_entry<F: FnOnce(&mut OverflowLight)>(
    s: &mut FfState,
    index: u32,
    change: F,
    made: OverflowLight,
) -> Result<(), TableFull>
    requires { F.IsAlwaysCallable change }
    ensures left { (to : OverflowLight → OverflowLight) → ((e f : OverflowLight) → FnOnceReturnsAtMut F.FnOnce change e tt f → f ≡ to e) → in_place result s.new ≡ change_entry s.old (found s.old index) to made }
    ensures kept { OnErr result (s.new ≡ s.old) }
{
    match search(s, index) {
        Ok(at) => {
            change(&mut s.overflow_lights[at]);
            s.mark_sections(LIGHTS);
            Ok(())
        }
        Err(at) => insert_entry(s, at, made),
    }
}

// A light stored under any index. A refused call changes nothing. The light is borrowed: by value, one stored in a slot took 13.4 ns in place of 11.2.
#[tactic(auto, unfolding(ff_state::specs::Lights::set_light_at, ff_state::specs::Dirty::dirtied))]
pub fn store_light_at(s: &mut FfState, index: u32, light: &D3DLIGHT9) -> Result<(), TableFull>
    ensures left { in_place result s.new ≡ set_light_at s.old index light.now }
    ensures kept { OnErr result (s.new ≡ s.old) }
{
    if index < 8 {
        set_slot(s, index, *light);
        s.mark_sections(LIGHTS);
        return Ok(());
    }
    let made = OverflowLight {
        index,
        enabled: 0,
        light: *light,
    };
    change_entry(s, index, |e| e.light = *light, made)
}

// A light of any index enabled or disabled. A refused call changes nothing.
#[tactic(auto, unfolding(ff_state::specs::Lights::set_light_enabled_at, ff_state::specs::Lights::flag, ff_state::specs::Dirty::dirtied))]
pub fn enable_light_at(s: &mut FfState, index: u32, enabled: bool) -> Result<(), TableFull>
    ensures left { in_place result s.new ≡ set_light_enabled_at s.old index enabled }
    ensures kept { OnErr result (s.new ≡ s.old) }
{
    if index < 8 {
        enable_slot(s, index, enabled);
        s.mark_sections(LIGHTS);
        return Ok(());
    }
    let enabled = u32::from(enabled);
    let made = OverflowLight {
        index,
        enabled,
        light: D3DLIGHT9::default(),
    };
    change_entry(s, index, |e| e.enabled = enabled, made)
}

// The same by value.
#[tactic(auto, unfolding(ff_state::specs::Changed::changed))]
pub fn set_light_at(mut s: FfState, index: u32, light: D3DLIGHT9) -> Result<FfState, TableFull>
    ensures { changed s result ≡ set_light_at s index light }
{
    store_light_at(&mut s, index, &light)?;
    Ok(s)
}

#[tactic(auto, unfolding(ff_state::specs::Changed::changed))]
pub fn set_light_enabled_at(mut s: FfState, index: u32, enabled: bool) -> Result<FfState, TableFull>
    ensures { changed s result ≡ set_light_enabled_at s index enabled }
{
    enable_light_at(&mut s, index, enabled)?;
    Ok(s)
}

// Whether a light of this index is stored or can be.
#[tactic(auto, unfolding(ff_state::specs::Lights::has_room))]
pub fn has_room(s: FfState, index: u32) -> bool
    ensures { result ≡ has_room s index }
{
    index < 8 || used_count(s.overflow_count) < 56 || search(&s, index).is_ok()
}

#[tactic(auto, unfolding(ff_state::specs::Lights::get_light_at))]
pub fn get_light_at(s: FfState, index: u32) -> Option<D3DLIGHT9>
    ensures { result ≡ get_light_at s index }
{
    if index < 8 {
        if has_bit(s.light_defined_mask, index) {
            return Some(s.lights[index as usize]);
        }
        return None;
    }
    let at = search(&s, index).ok()?;
    Some(s.overflow_lights[at].light)
}

#[tactic(auto, unfolding(ff_state::specs::Lights::is_light_enabled_at))]
pub fn is_light_enabled_at(s: FfState, index: u32) -> bool
    ensures { result ≡ is_light_enabled_at s index }
{
    if index < 8 {
        return has_bit(s.light_enabled, index);
    }
    search(&s, index).is_ok_and(|at| s.overflow_lights[at].enabled != 0)
}

#[tactic(auto, unfolding(ff_state::specs::Lights::is_light_defined_at))]
pub fn is_light_defined_at(s: FfState, index: u32) -> bool
    ensures { result ≡ is_light_defined_at s index }
{
    if index < 8 {
        return has_bit(s.light_defined_mask, index);
    }
    search(&s, index).is_ok()
}
