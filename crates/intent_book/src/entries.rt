// The entries of a record, and the numbers that say their order.
//
// The map's hash has a fixed seed: a random one is read from the runtime, which no record is given.
// Today's calls record nothing before its actor is found among the player's own objects, whose ids
// the server gives: so a player chooses his actions, and his actors only among those. A call that let
// him choose an actor freely would let him choose keys that collide, and each look-up of his would
// go through up to all entries of his record.
ghost use Rattle.std.specs.Prelude.{◌≡◌, ℕ, ◌+◌, ◌<◌, ◌≤◌, ◌||◌, [], is_some, nat_lt, if◌then◌else◌};
ghost use Rattle.std.specs.Prelude.{vec_capacity, IsPermutation, IsSortedByKey};
ghost use Rattle.indexmap.specs.IndexMap.{index_map_len, spare, get, insert_entry, IsUnique, with_value_at};
ghost use Rattle.intent_book.specs.inner.Numbered.{Finds, IsKept, intents, listed, lower as lowest};
ghost use Rattle.intent_book.specs.Records.{entries_bound, place, place_cmp, place_eq};

use crate::intent::{Intent, Intents};
use crate::recorded::most_entries;
use indexmap::IndexMap;

/// An intent with the number that says where it stands: a later one has a higher number.
#[derive(Clone, Copy)]
pub struct Kept {
    pub order: u64,
    pub intent: Intent,
}

pub type Entries = IndexMap<(u8, u64), Kept>;

/// Keeps an intent under its action and actor, unless there is no room left. It takes no memory.
pub fn keep(entries: &mut Entries, kept: Kept) -> bool
    requires room { entries_bound ≤ spare entries.old + index_map_len entries.old }
    requires most { index_map_len entries.old ≤ entries_bound }
    ensures answer { result ≡ (is_some (get place_eq entries.old (place kept.intent))
        || nat_lt (index_map_len entries.old) entries_bound) }
    ensures entries { entries.new.entries
        ≡ (if result then insert_entry place_eq entries.old.entries (place kept.intent) kept
        else entries.old.entries) }
    ensures room { entries_bound ≤ spare entries.new + index_map_len entries.new }
    ensures most { index_map_len entries.new ≤ entries_bound }
    ensures unique { IsUnique place_eq entries.old }
{
    let place = kept.intent.place();
    match entries.get_index_of(&place) {
        Some(at) => {
            write_at(entries, at, kept);
            true
        }
        None => {
            if entries.len() >= most_entries() as usize {
                return false;
            }
            let _ = entries.insert(place, kept).unwrap();
            true
        }
    }
}

/// Writes the value at an index.
pub fn write_at(entries: &mut Entries, at: usize, kept: Kept)
    requires { at < index_map_len entries.old }
    ensures { entries.new ≡ with_value_at entries.old at kept }
{
    if let Some(slot) = entries.get_index_mut(at) {
        *slot = kept;
    }
}

/// The first number that is free, below the highest that there is.
pub fn fresh(entries: &mut Entries, next: u64) -> u64
    requires kept { IsKept next entries.old.entries }
    requires most { index_map_len entries.old ≤ entries_bound }
    ensures list { listed result entries.new.entries ≡ listed next entries.old.entries }
    ensures kept { IsKept result entries.new.entries }
    ensures free { result < u64.MAX }
    ensures len { index_map_len entries.new ≡ index_map_len entries.old }
    ensures spare { spare entries.new ≡ spare entries.old }
{
    if next < u64::MAX {
        return next;
    }
    renumber(entries, next)
}

/// Gives the entries the numbers from 0 on, in the order in which they stand, and answers the first
/// number that is free.
pub fn renumber(entries: &mut Entries, next: u64) -> u64
    requires kept { IsKept next entries.old.entries }
    requires most { index_map_len entries.old ≤ entries_bound }
    ensures list { listed result entries.new.entries ≡ listed next entries.old.entries }
    ensures kept { IsKept result entries.new.entries }
    ensures free { result ≤ entries_bound }
    ensures len { index_map_len entries.new ≡ index_map_len entries.old }
    ensures spare { spare entries.new ≡ spare entries.old }
{
    let mut free = 0;
    let mut from = 0;
    while let Some((at, kept)) = next_kept(entries, from) {
        write_at(
            entries,
            at,
            Kept {
                order: free,
                intent: kept.intent,
            },
        );
        free += 1;
        from = kept.order + 1;
    }
    free
}

/// The entry with the lowest number from `from` on, with its place in the map.
pub fn next_kept(entries: &Entries, from: u64) -> Option<(usize, Kept)>
    ensures { Finds entries.now.entries from result entries.now.entries }
{
    let mut least = None;
    for at in 0..entries.len() {
        if let Some((_, kept)) = entries.get_index(at) {
            if kept.order >= from {
                least = lower(least, (at, *kept));
            }
        }
    }
    least
}

fn lower(least: Option<(usize, Kept)>, other: (usize, Kept)) -> Option<(usize, Kept)>
    ensures { result ≡ lowest least other }
{
    match least {
        None => Some(other),
        Some(least) => {
            if other.1.order < least.1.order {
                Some(other)
            } else {
                Some(least)
            }
        }
    }
}

/// The intents by action and then by actor, in an empty list that has the room for them.
pub fn arranged(entries: &Entries, mut list: Vec<Intent>) -> Intents
    requires empty { list.items ≡ [] }
    requires room { index_map_len entries.now ≤ vec_capacity list }
    ensures same { IsPermutation (intents entries.now.entries) result }
    ensures sorted { IsSortedByKey place place_cmp result }
    ensures unique { IsUnique place_eq entries.now }
{
    pour(entries, &mut list);
    list.sort_unstable_by_key(|intent| intent.place());
    Intents::of(list)
}

/// Adds the intents to an empty list that has the room for them.
fn pour(entries: &Entries, list: &mut Vec<Intent>)
    requires empty { list.old.items ≡ [] }
    requires room { index_map_len entries.now ≤ vec_capacity list.old }
    ensures items { list.new.items ≡ intents entries.now.entries }
    ensures unique { IsUnique place_eq entries.now }
{
    for at in 0..entries.len() {
        if let Some((_, kept)) = entries.get_index(at) {
            list.push_reserved(kept.intent);
        }
    }
}
