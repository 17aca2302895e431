// The sorted entries of the lights from index 8 on.
ghost use Rattle.std.specs.Prelude.{◌≡◌, ◌≤◌, ◌<◌};
ghost use Rattle.light_table.specs.Overflow.{used_count, lower_bound, find_entry, inserted_at};

use crate::entry::OverflowLight;

// A count above 56 reads as 56.
#[tactic(auto, unfolding(crate::specs::Overflow::used_count))]
pub fn used_count(count: u16) -> usize
    ensures value { result ≡ used_count count }
    ensures within { result ≤ 56 }
{
    usize::from(count).min(56)
}

// The number of leading entries whose index is below the given one. The state is a record that a host may fill, so no order of its entries is asked, and an unsorted
// table has an answer too; std's `partition_point` and `binary_search_by_key` say where they stop of sorted entries only.
#[tactic(auto, unfolding(crate::specs::Overflow::lower_bound))]
fn lower_bound(entries: &[OverflowLight], index: u32) -> usize
    ensures { result ≡ lower_bound entries.now index }
{
    entries.iter().take_while(|e| e.index < index).count()
}

// Ok of where the entry of an index stands, or Err of where it would stand.
#[tactic(auto, unfolding(crate::specs::Overflow::find_entry))]
pub fn find(entries: &[OverflowLight], index: u32) -> Result<usize, usize>
    ensures { result ≡ find_entry entries.now index }
{
    let at = lower_bound(entries, index);
    match entries.get(at) {
        Some(e) if e.index == index => Ok(at),
        _ => Err(at),
    }
}

// One entry more, put in before the one at `at`; the last, which is unused, is dropped.
pub fn insert_at(entries: &mut [OverflowLight; 56], at: usize, e: OverflowLight)
    requires { at < 56 }
    ensures { entries.new ≡ inserted_at at e entries.old }
{
    entries.copy_within(at..55, at + 1);
    entries[at] = e;
}
