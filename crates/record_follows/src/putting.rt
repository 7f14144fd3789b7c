// Recorded tables and accounts in the place of those of the world.
ghost use Rattle.std.specs.Prelude.{◌≡◌, ◌<◌, ℕ, List, IfOk, OnOk, Some, length, option_map, slice_get};
ghost use Rattle.std.specs.Prelude.{slice_set};
ghost use Rattle.std.specs.List.{AllByRecursion};
ghost use Rattle.changed_rules.specs.Census.{ArePlaced};
ghost use Rattle.object_store.specs.declared.world.Room.{Room};
ghost use Rattle.object_store.specs.Stored.{HasAccount};
ghost use Rattle.room_table.specs.Tables.{Table};
ghost use Rattle.record_follows.specs.Follows.{room_after};
ghost use Rattle.record_follows.specs.inner.Parts.{AreFirst, noted, with_accounts, with_rooms};

use crate::NoMemory;
use object_store::{Account, RoomTable, World};
use std::alloc::Global;

/// Puts the first recorded table of each index in the place of that of its room.
pub(crate) fn put_rooms(
    alloc: Global,
    world: &mut World,
    tables: &[RoomTable],
) -> Result<(), NoMemory>
    requires { AllByRecursion (λ table. table.index < length world.old.rooms) tables.now }
    ensures { OnOk result (world.new ≡ with_rooms tables.now world.old) }
{
    let firsts = first_tables(alloc, world.rooms() as usize, tables)?;
    for place in 0..world.rooms() {
        put_room(alloc, world, place, &firsts)?;
    }
    Ok(())
}

// The first table of each index below a number.
fn first_tables<'a>(
    alloc: Global,
    rooms: usize,
    tables: &'a [RoomTable],
) -> Result<Vec<Option<&'a RoomTable>>, NoMemory>
    requires { AllByRecursion (λ table. table.index < rooms) tables.now }
    ensures { IfOk result (λ firsts. AreFirst firsts.items tables.now) }
{
    let mut firsts: Vec<Option<&'a RoomTable>> = vec![in alloc; None; rooms]?;
    for at in (0..tables.len()).rev() {
        let table = &tables[at];
        let index = table.index() as usize;
        firsts[index] = Some(table);
    }
    Ok(firsts)
}

// Puts the table that is noted for the room's index, where there is one, in the place of the room's.
fn put_room(
    alloc: Global,
    world: &mut World,
    place: u32,
    firsts: &[Option<&RoomTable>],
) -> Result<(), NoMemory>
    requires { place < length world.old.rooms }
    ensures { OnOk result ((tables : List Table) (room : Room) → AreFirst firsts.now tables
        → slice_get world.old.rooms place ≡ Some room
        → world.new ≡ record world.old { rooms = slice_set world.old.rooms place (room_after tables room) }) }
{
    let index = world.room(place).index();
    if let Some(table) = first_of(firsts, index) {
        *world.room_mut(place) = table.copy(alloc, u64::from(table.spare()))?;
    }
    Ok(())
}

// The table that is noted for an index.
fn first_of<'a>(firsts: &[Option<&'a RoomTable>], index: u32) -> Option<&'a RoomTable>
    ensures { option_map (λ table. table.now) result ≡ noted firsts.now index }
{
    if index as usize >= firsts.len() {
        return None;
    }
    firsts[index as usize]
}

/// Puts the first of the tables of each index in the place of that of its room: the last one first, so that
/// an earlier one takes its place.
pub(crate) fn take_rooms(world: &mut World, mut tables: Vec<RoomTable>)
    requires places { ArePlaced world.old.rooms }
    requires rooms { AllByRecursion (λ table. table.index < length world.old.rooms) tables.items }
    ensures { world.new ≡ with_rooms tables.items world.old }
{
    'each: while let Some(table) = tables.pop() {
        let index = table.index();
        *world.room_mut(index) = table;
    }
}

/// Puts the first recorded account of each player in the place of his.
pub(crate) fn put_accounts(
    alloc: Global,
    world: &mut World,
    accounts: &[Account],
) -> Result<(), NoMemory>
    requires { AllByRecursion (λ account. HasAccount account.player world.old.accounts) accounts.now }
    ensures { OnOk result (world.new ≡ with_accounts accounts.now world.old) }
{
    for at in (0..accounts.len()).rev() {
        world.set_account(accounts[at].copy(alloc)?);
    }
    Ok(())
}
