// The world that a journal begins with, read from the content of its first frame.
ghost use Rattle.std.specs.Prelude.{◌≡◌, ◌<◌, ◌≤◌, ◌^◌, ◌↔◌, ℕ, List, [], length, map, IsTrue, IfOk, IfErr};
ghost use Rattle.std.specs.Prelude.{OnOk};
ghost use Rattle.std.specs.List.{AllByRecursion};
ghost use Rattle.object_store.specs.Stored.{Stored, AreRising};
ghost use Rattle.room_terrain.specs.Names.{IsInRange, IsSideInRange};
ghost use Rattle.room_terrain.specs.Tiles.{ground_number};
ghost use Rattle.room_terrain.specs.declared.terrain.Ground.{Ground};
ghost use Rattle.tick_journal.specs.BaseForms.{AreInPlace, HasBaseAccounts, HasBaseRoomForm, HasBaseRooms};
ghost use Rattle.tick_journal.specs.BaseForms.{SpellsBase};
ghost use Rattle.tick_journal.specs.Contents.{base_room};
ghost use Rattle.tick_journal.specs.inner.Base.{AreTiles, IsTick, accounts_row, base_room_row};
ghost use Rattle.tick_journal.specs.inner.Base.{base_rooms_row, name_row, side_row, start_row, terrain_row};
ghost use Rattle.tick_journal.specs.inner.Rows.{AreListed, list_row};
ghost use Rattle.world_bytes.specs.inner.Rows.{Leads, LeadsNone};

use crate::NoMemory;
use crate::accounts::read_accounts;
use crate::base::{MARK, VERSION};
use byte_fields::Cursor;
use game_tables::{most_players, most_rooms};
use object_store::{Account, Room, World};
use room_terrain::{Ground, RoomName, Terrain};
use std::alloc::Global;
use world_bytes::{BytesFault, read_room};

// The greatest tick.
const MOST_TICK: u64 = 1 << 53;

// Reads the mark, the version and the tick.
fn read_start(from: &mut Cursor) -> Result<u64, BytesFault>
    ensures found { IfOk result (λ tick. Leads IsTick start_row from.old.0 tick from.new.0) }
    ensures malformed { IfErr result (λ e. e ≡ BytesFault.Malformed → LeadsNone IsTick start_row from.old.0) }
{
    let mark = from.take(4)?;
    if mark != MARK.as_slice() {
        return Err(BytesFault::Malformed);
    }
    let version = from.u32()?;
    if version != VERSION {
        return Err(BytesFault::Malformed);
    }
    let tick = from.u64()?;
    if tick > MOST_TICK {
        return Err(BytesFault::Malformed);
    }
    Ok(tick)
}

// Reads a column or a row.
fn read_side(from: &mut Cursor) -> Result<i32, BytesFault>
    ensures found { IfOk result (λ side. Leads IsSideInRange side_row from.old.0 side from.new.0) }
    ensures malformed { IfErr result (λ e. e ≡ BytesFault.Malformed
        → LeadsNone IsSideInRange side_row from.old.0) }
{
    let side = from.u32()?.cast_signed();
    if side < -128 || side > 127 {
        return Err(BytesFault::Malformed);
    }
    Ok(side)
}

// Reads the name of a room.
fn read_name(from: &mut Cursor) -> Result<RoomName, BytesFault>
    ensures found { IfOk result (λ name. Leads IsInRange name_row from.old.0 name from.new.0) }
    ensures malformed { IfErr result (λ e. e ≡ BytesFault.Malformed
        → LeadsNone IsInRange name_row from.old.0) }
{
    let column = read_side(from)?;
    let row = read_side(from)?;
    Ok(RoomName { column, row })
}

// The grounds of these numbers.
fn grounds_of(alloc: Global, numbers: &[u8]) -> Result<Vec<Ground>, BytesFault>
    ensures found { IfOk result (λ grounds. numbers.now ≡ map ground_number grounds.items) }
    ensures malformed { IfErr result (λ e. e ≡ BytesFault.Malformed
        → (grounds : List Ground) → numbers.now ≡ map ground_number grounds → ⊥) }
{
    let mut grounds = Vec::with_capacity(alloc, numbers.len())?;
    'each: for number in numbers {
        let Some(ground) = Ground::of_number(*number) else {
            return Err(BytesFault::Malformed);
        };
        grounds.push(ground)?;
    }
    Ok(grounds)
}

// Reads the grounds of a room.
fn read_terrain(alloc: Global, from: &mut Cursor) -> Result<Terrain, BytesFault>
    ensures found { IfOk result (λ terrain. Leads AreTiles terrain_row from.old.0 terrain from.new.0) }
    ensures malformed { IfErr result (λ e. e ≡ BytesFault.Malformed
        → LeadsNone AreTiles terrain_row from.old.0) }
{
    let numbers = from.take(2500)?;
    let grounds = grounds_of(alloc, numbers)?;
    Ok(Terrain::of(alloc, &grounds)?)
}

// Reads a room with its name and its terrain.
fn read_base_room(alloc: Global, from: &mut Cursor) -> Result<Room, BytesFault>
    ensures found { IfOk result (λ room. Leads HasBaseRoomForm base_room_row from.old.0 room from.new.0) }
    ensures malformed { IfErr result (λ e. e ≡ BytesFault.Malformed
        → LeadsNone HasBaseRoomForm base_room_row from.old.0) }
{
    let name = read_name(from)?;
    let terrain = read_terrain(alloc, from)?;
    let (_, table) = read_room(alloc, from)?;
    Ok(Room {
        name,
        terrain,
        table,
    })
}

// Reads so many rooms into a world without rooms, and takes memory as they are read.
fn rooms_ahead(
    alloc: Global,
    count: u32,
    from: &mut Cursor,
    world: &mut World,
) -> Result<(), BytesFault>
    requires few { count ≤ 400 }
    requires none { world.old.rooms ≡ [] }
    ensures found { OnOk result (Leads (AreListed AreInPlace HasBaseRoomForm count)
        (list_row base_room) from.old.0 world.new.rooms from.new.0) }
    ensures malformed { IfErr result (λ e. e ≡ BytesFault.Malformed
        → LeadsNone (AreListed AreInPlace HasBaseRoomForm count) (list_row base_room) from.old.0) }
    ensures tick { OnOk result (world.new.tick ≡ world.old.tick) }
    ensures accounts { OnOk result (world.new.accounts ≡ world.old.accounts) }
{
    'each: for index in 0..count {
        let room = read_base_room(alloc, from)?;
        if room.table.index() != index {
            return Err(BytesFault::Malformed);
        }
        world.push_room(room.name, room.terrain, room.table)?;
    }
    Ok(())
}

// Reads the rooms, behind their number, into a world without rooms.
fn read_base_rooms(alloc: Global, from: &mut Cursor, world: &mut World) -> Result<(), BytesFault>
    requires { world.old.rooms ≡ [] }
    ensures found { OnOk result
        (Leads HasBaseRooms base_rooms_row from.old.0 world.new.rooms from.new.0) }
    ensures malformed { IfErr result (λ e. e ≡ BytesFault.Malformed
        → LeadsNone HasBaseRooms base_rooms_row from.old.0) }
    ensures tick { OnOk result (world.new.tick ≡ world.old.tick) }
    ensures accounts { OnOk result (world.new.accounts ≡ world.old.accounts) }
{
    let count = from.u32()?;
    if count == 0 || count > most_rooms() {
        return Err(BytesFault::Malformed);
    }
    rooms_ahead(alloc, count, from, world)
}

// Whether no account is of player 0.
fn are_from_one(accounts: &[Account]) -> bool
    ensures { IsTrue result ↔ AllByRecursion (λ account. 1 ≤ account.player) accounts.now }
{
    accounts.iter().all(|account| account.player >= 1)
}

// Reads the accounts, behind their number.
fn read_base_accounts(alloc: Global, from: &mut Cursor) -> Result<Vec<Account>, BytesFault>
    ensures found { IfOk result
        (λ accounts. Leads HasBaseAccounts accounts_row from.old.0 accounts.items from.new.0) }
    ensures malformed { IfErr result (λ e. e ≡ BytesFault.Malformed
        → LeadsNone HasBaseAccounts accounts_row from.old.0) }
{
    let accounts = read_accounts(alloc, from)?;
    if accounts.len() > most_players() as usize || !are_from_one(&accounts) {
        return Err(BytesFault::Malformed);
    }
    Ok(accounts)
}

// Gives a world without accounts these.
fn add_accounts(world: &mut World, accounts: Vec<Account>) -> Result<(), NoMemory>
    requires none { world.old.accounts ≡ [] }
    requires rising { AreRising accounts.items }
    requires few { length accounts.items < 2 ^ 32 }
    ensures { OnOk result (world.new ≡ record world.old { accounts = accounts.items }) }
{
    for account in accounts {
        world.push_account(account)?;
    }
    Ok(())
}

/// The world that a base content says, by the form of the bytes alone. Memory is taken as rooms and
/// accounts are read, whatever number of them is promised.
pub fn read_base_form(alloc: Global, content: &[u8]) -> Result<World, BytesFault>
    ensures found { IfOk result (λ world. SpellsBase content.now world) }
    ensures malformed { IfErr result (λ e. e ≡ BytesFault.Malformed
        → (world : Stored) → SpellsBase content.now world → ⊥) }
{
    let mut from = Cursor::over(content);
    let tick = read_start(&mut from)?;
    let mut world = World::empty(alloc, tick);
    read_base_rooms(alloc, &mut from, &mut world)?;
    let accounts = read_base_accounts(alloc, &mut from)?;
    if from.left() > 0 {
        return Err(BytesFault::Malformed);
    }
    add_accounts(&mut world, accounts)?;
    Ok(world)
}
