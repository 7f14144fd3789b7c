// What changed of what is stored.
ghost use Rattle.std.specs.Prelude.{◌≡◌, ◌↔◌, length, slice_get, IsTrue, IfOk, OnOk};
ghost use Rattle.recorded_tick.specs.Recording.{AreAlike, AreChangedAccounts, AreChangedRooms};
ghost use Rattle.recorded_tick.specs.inner.Steps.{AddsAccount, AddsTable};

use crate::NoMemory;
use object_store::{Account, Object, Room, RoomTable};
use std::alloc::Global;

// Whether two objects have one id, kind, tile and owner, and the same hits.
fn stand_alike(one: &Object, other: &Object) -> bool
    ensures { IsTrue result ↔ ((one.now.id ≡ other.now.id) × (one.now.kind ≡ other.now.kind)
        × (one.now.x ≡ other.now.x) × (one.now.y ≡ other.now.y) × (one.now.owner ≡ other.now.owner)
        × (one.now.hits ≡ other.now.hits)) }
{
    one.id == other.id
        && one.kind == other.kind
        && one.x == other.x
        && one.y == other.y
        && one.owner == other.owner
        && one.hits == other.hits
}

// Whether the other numbers of two objects are the same.
fn hold_alike(one: &Object, other: &Object) -> bool
    ensures { IsTrue result ↔ ((one.now.energy ≡ other.now.energy) × (one.now.timer ≡ other.now.timer)
        × (one.now.extra ≡ other.now.extra) × (one.now.progress ≡ other.now.progress)
        × (one.now.other ≡ other.now.other) × (one.now.other_ticks ≡ other.now.other_ticks)) }
{
    one.energy == other.energy
        && one.timer == other.timer
        && one.extra == other.extra
        && one.progress == other.progress
        && one.other == other.other
        && one.other_ticks == other.other_ticks
}

// Whether two objects have the same body.
fn has_same_body(one: &Object, other: &Object) -> bool
    ensures { IsTrue result ↔ (one.now.body ≡ other.now.body) }
{
    one.body.parts() == other.body.parts()
}

// Whether two objects are the same in all.
fn are_same(one: &Object, other: &Object) -> bool
    ensures { IsTrue result ↔ (one.now ≡ other.now) }
{
    stand_alike(one, other) && hold_alike(one, other) && has_same_body(one, other)
}

// Whether the objects at a place are the same.
fn are_same_at(one: &RoomTable, other: &RoomTable, place: u32) -> bool
    ensures { IsTrue result ↔ (slice_get one.now.objects place ≡ slice_get other.now.objects place) }
{
    match (one.nth(place), other.nth(place)) {
        (Some(object), Some(its)) => are_same(object, its),
        (None, None) => true,
        _ => false,
    }
}

// Whether two rooms have the same objects, up to the first that differs.
fn have_same_objects(one: &RoomTable, other: &RoomTable) -> bool
    ensures { IsTrue result ↔ (one.now.objects ≡ other.now.objects) }
{
    if one.len() != other.len() {
        return false;
    }
    for place in 0..one.len() {
        if !are_same_at(one, other, place) {
            return false;
        }
    }
    true
}

/// Whether two tables are written alike: nothing that is read from one of them differs. It takes one pass
/// over both, up to the first object that differs.
pub fn are_alike(one: &RoomTable, other: &RoomTable) -> bool
    ensures { IsTrue result ↔ AreAlike one.now other.now }
{
    one.index() == other.index() && one.next() == other.next() && have_same_objects(one, other)
}

// A copy of a table without memory for more objects.
fn copy_bare(alloc: Global, table: &RoomTable) -> Result<RoomTable, NoMemory>
    ensures { IfOk result (λ copy. AreAlike copy table.now) }
{
    // A table has fewer than 2^32 objects.
    table.stands_in_order();
    table.copy(alloc, 0)
}

// Adds a room's table where it changed.
fn add_table(
    alloc: Global,
    before: &Room,
    after: &Room,
    tables: &mut Vec<RoomTable>,
) -> Result<(), NoMemory>
    ensures { OnOk result (AddsTable before.now.table after.now.table tables.old.items tables.new.items) }
{
    if !are_alike(&before.table, &after.table) {
        tables.push(copy_bare(alloc, &after.table)?)?;
    }
    Ok(())
}

/// The tables of the rooms that changed, in their order.
pub(crate) fn changed_rooms(
    alloc: Global,
    before: &[Room],
    after: &[Room],
) -> Result<Vec<RoomTable>, NoMemory>
    requires { length before.now ≡ length after.now }
    ensures { IfOk result (λ tables. AreChangedRooms before.now after.now tables.items) }
{
    let mut tables = Vec::new(alloc);
    for place in 0..before.len() {
        add_table(alloc, &before[place], &after[place], &mut tables)?;
    }
    Ok(tables)
}

// Whether two accounts are the same in all.
fn are_equal(one: &Account, other: &Account) -> bool
    ensures { IsTrue result ↔ (one.now ≡ other.now) }
{
    one.player == other.player
        && one.limit == other.limit
        && one.bucket == other.bucket
        && one.points == other.points
        && one.memory.as_slice() == other.memory.as_slice()
}

// Adds an account where it changed.
fn add_account(
    alloc: Global,
    before: &Account,
    after: &Account,
    accounts: &mut Vec<Account>,
) -> Result<(), NoMemory>
    ensures { OnOk result (AddsAccount before.now after.now accounts.old.items accounts.new.items) }
{
    if !are_equal(before, after) {
        accounts.push(after.copy(alloc)?)?;
    }
    Ok(())
}

/// The accounts that changed, in their order.
pub(crate) fn changed_accounts(
    alloc: Global,
    before: &[Account],
    after: &[Account],
) -> Result<Vec<Account>, NoMemory>
    requires { length before.now ≡ length after.now }
    ensures { IfOk result (λ accounts. AreChangedAccounts before.now after.now accounts.items) }
{
    let mut accounts = Vec::new(alloc);
    for place in 0..before.len() {
        add_account(alloc, &before[place], &after[place], &mut accounts)?;
    }
    Ok(accounts)
}
