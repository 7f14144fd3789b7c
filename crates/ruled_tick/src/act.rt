// What the entries of a tick make of the rooms.
ghost use Rattle.std.specs.Prelude.{◌≡◌, ◌≢◌, ◌<◌, ◌≤◌, ◌^◌, ℕ, length, Some, option_map, slice_get, OnOk};
ghost use Rattle.std.specs.Prelude.{IfOk, OnErr};
ghost use Rattle.object_store.specs.declared.world.Room.{Room};
ghost use Rattle.world_rules.specs.RoomParts.{table_part};
ghost use Rattle.world_rules.specs.Tick.{book};
ghost use Rattle.room_table.specs.Tables.{AreTalliesOf};
ghost use Rattle.room_rules.specs.Calls.{IsHarmedBy, IsReady, Keeps};
ghost use Rattle.ruled_tick.specs.inner.Entered.{many_in, wanted_spare, widened, widened_table, AreCounts};
ghost use Rattle.ruled_tick.specs.inner.Entered.{IsGained, IsRuled, IsRuledIn};

use controller_rules::{attack_controller, claim, reserve, upgrade};
use creep_combat::{attack, heal, mass_attack, ranged_attack, ranged_heal, suicide};
use creep_logistics::{drop_load, pickup, transfer, withdraw};
use creep_work::{build, dismantle, harvest, repair};
use game_tables::Action;
use intent_book::Intent;
use kept_entries::Entry;
use object_store::{Room, RoomTable, Terrain};
use spawn_rules::{create_site, remove_site, spawn};
use std::alloc::{AllocError as NoMemory, Global};

/// Begins a tick in each room: forgets what was done to its objects, and gives its table memory for what its
/// entries and a step of upkeep may make. A table that has as much is left in its place, another is copied.
pub fn widen_all(alloc: Global, rooms: &mut [Room], entries: &[Entry]) -> Result<(), NoMemory>
    requires few { length entries.now ≤ 2 ^ 18 }
    ensures { OnOk result ((index : ℕ) → slice_get rooms.new index
        ≡ option_map (widened (many_in index entries.now)) (slice_get rooms.old index)) }
{
    let counts = counts_of(alloc, rooms.len(), entries)?;
    for (index, room) in rooms.iter_mut().enumerate() {
        widen(alloc, &mut room.table, counts[index])?;
    }
    Ok(())
}

/// Rules an entry in its room, if there is such a room, and answers the points that its player gains.
pub fn enter(rooms: &mut [Room], entry: &Entry) -> u32
    requires ready { (room : Room) → slice_get rooms.old entry.now.room ≡ Some room → IsReady room.table }
    ensures { IsRuledIn
        (slice_get rooms.old entry.now.room) entry.now.room entry.now.intent result rooms.old rooms.new }
{
    let index = entry.room as usize;
    if index < rooms.len() {
        rule_in(&mut rooms[index], &entry.intent)
    } else {
        0
    }
}

// How many entries each of so many rooms has.
fn counts_of(alloc: Global, rooms: usize, entries: &[Entry]) -> Result<Vec<u32>, NoMemory>
    requires few { length entries.now ≤ 2 ^ 18 }
    ensures { IfOk result (λ counts. AreCounts rooms entries.now counts.items) }
{
    let mut counts = vec![in alloc; 0_u32; rooms]?;
    for entry in entries {
        let index = entry.room as usize;
        if index < counts.len() {
            counts[index] += 1;
        }
    }
    Ok(counts)
}

/// Begins a tick in a room's table: gives it memory for what so many entries and a step of upkeep may make,
/// by a copy where it hasn't as much, and forgets what was done to its objects.
pub fn widen(alloc: Global, table: &mut RoomTable, entries: u32) -> Result<(), NoMemory>
    ensures widened { OnOk result (table.new ≡ widened_table entries table.old) }
    ensures unchanged { OnErr result (table.new ≡ table.old) }
{
    if wanted(table, entries) > u64::from(table.spare()) {
        *table = copied(alloc, table, entries)?;
    }
    table.clear_sums();
    Ok(())
}

/// A copy of a table with memory for what so many entries and a step of upkeep may make. Where its objects
/// and that memory come to 2^32, it is refused as one without memory; a room that keeps the rules has at most
/// 7,500 objects.
pub fn copied(alloc: Global, table: &RoomTable, entries: u32) -> Result<RoomTable, NoMemory>
    ensures { IfOk result
        (λ copy. copy ≡ record table.now { spare = wanted_spare entries (length table.now.objects) }) }
{
    let spare = wanted(table, entries);
    if u64::from(table.len()) + spare > u64::from(u32::MAX) {
        return Err(NoMemory);
    }
    table.copy(alloc, spare)
}

// The memory for what so many entries and a step of upkeep may make.
fn wanted(table: &RoomTable, entries: u32) -> u64
    ensures { result ≡ wanted_spare entries (length table.now.objects) }
{
    u64::from(entries) + (4 * u64::from(table.len()) + 196)
}

fn rule_in(room: &mut Room, intent: &Intent) -> u32
    requires ready { IsReady room.old.table }
    ensures rest { room.new ≡ record room.old { table = room.new.table } }
    ensures ruled { IsRuled room.old.terrain intent.now room.old.table room.new.table }
    ensures points { IsGained intent.now room.old.table result }
{
    let points = rule(&room.terrain, &mut room.table, intent);
    room.table.stands_in_order();
    points
}

/// Rules an entry on the table of its room, and answers the points that its player gains, which only an
/// upgrade gives. What fighters do to objects is added up beside the table.
pub fn rule(ground: &Terrain, table: &mut RoomTable, intent: &Intent) -> u32
    requires ready { IsReady table.old }
    ensures rule { table_part ground.now table.new
        ≡ (book.effect intent.now (table_part ground.now table.old)).part }
    ensures harm { IsHarmedBy (book.harm intent.now (table_part ground.now table.old)) table.old table.new }
    ensures told { AreTalliesOf table.old.objects table.old.tallies }
    ensures keeps { Keeps table.old table.new }
    ensures points { IsGained intent.now table.old result }
{
    // No sum passes its most, and nothing was done to what doesn't stand.
    table.stands_in_order();
    match intent.action {
        Action::Upgrade => upgrade(table, intent),
        _ => {
            rule_plain(ground, table, intent);
            0
        }
    }
}

// The rule of each action that gives no points. A move does nothing yet: it is settled with the other moves
// of its room after all entries.
fn rule_plain(ground: &Terrain, table: &mut RoomTable, intent: &Intent)
    requires ready { IsReady table.old }
    requires plain { intent.now.action ≢ Action.Upgrade }
    requires told { AreTalliesOf table.old.objects table.old.tallies }
    ensures rule { table_part ground.now table.new
        ≡ (book.effect intent.now (table_part ground.now table.old)).part }
    ensures harm { IsHarmedBy (book.harm intent.now (table_part ground.now table.old)) table.old table.new }
    ensures keeps { Keeps table.old table.new }
{
    match intent.action {
        Action::DropLoad => drop_load(table, intent),
        Action::Transfer => transfer(table, intent),
        Action::Withdraw => withdraw(table, intent),
        Action::Pickup => pickup(table, intent),
        Action::Heal => heal(table, intent),
        Action::RangedHeal => ranged_heal(table, intent),
        Action::Dismantle => dismantle(table, intent),
        Action::Attack => attack(table, intent),
        Action::Harvest => harvest(table, intent),
        Action::Repair => repair(table, intent),
        Action::Build => build(table, intent),
        Action::RangedMassAttack => mass_attack(table, intent),
        Action::RangedAttack => ranged_attack(table, intent),
        Action::Suicide => suicide(table, intent),
        Action::ClaimController => claim(table, intent),
        Action::Reserve => reserve(table, intent),
        Action::AttackController => attack_controller(table, intent),
        Action::CreateSite => create_site(ground, table, intent),
        Action::RemoveSite => remove_site(table, intent),
        Action::SpawnCreep => spawn(table, intent),
        Action::Upgrade | Action::Move => {}
    }
}
