// The rooms of tables.
ghost use Rattle.std.specs.Prelude.{◌≡◌, ◌<◌, ℕ, true, nat_eq, IfOk, MatchBool, length};
ghost use Rattle.std.specs.List.{AllByRecursion, IsDistinct};
ghost use Rattle.changed_rules.specs.Census.{KeepsSerials, indices};
ghost use Rattle.changed_rules.specs.Counts.{is_among};

use object_store::{RoomTable, World};
use std::alloc::{AllocError as NoMemory, Global};
use std::collections::BTreeSet;

/// The indices of the tables, each once.
pub(crate) fn places_of(alloc: Global, tables: &[RoomTable]) -> Result<Vec<u32>, NoMemory>
    ensures same { IfOk result (λ places. (index : ℕ) → is_among index places.items
        ≡ is_among index (indices tables.now)) }
    ensures once { IfOk result (λ places. IsDistinct nat_eq places.items) }
{
    let mut seen: BTreeSet<u32> = BTreeSet::new(alloc);
    let mut places = Vec::new(alloc);
    for table in tables {
        let index = table.index();
        if seen.insert(index)? {
            places.push(index)?;
        }
    }
    Ok(places)
}

/// The indices of all rooms.
pub(crate) fn all_places(alloc: Global, rooms: u32) -> Result<Vec<u32>, NoMemory>
    ensures all { IfOk result (λ places. (index : ℕ) → index < rooms → is_among index places.items ≡ true) }
    ensures within { IfOk result (λ places. AllByRecursion (λ place. place < rooms) places.items) }
    ensures once { IfOk result (λ places. IsDistinct nat_eq places.items) }
{
    let mut places = Vec::with_capacity(alloc, rooms as usize)?;
    for place in 0..rooms {
        places.push(place)?;
    }
    Ok(places)
}

/// Whether no table lowers the next serial of its room.
pub(crate) fn keep_serials(world: &World, tables: &[RoomTable]) -> bool
    requires { AllByRecursion (λ table. table.index < length world.now.rooms) tables.now }
    ensures { MatchBool result (AllByRecursion (KeepsSerials world.now.rooms) tables.now)
        (AllByRecursion (KeepsSerials world.now.rooms) tables.now → ⊥) }
{
    for table in tables {
        if table.next() < world.room(table.index()).next() {
            return false;
        }
    }
    true
}
