// Movement and upkeep of all rooms.
ghost use Rattle.std.specs.Prelude.{◌≡◌, IsTrue, ◌<◌, ◌^◌, ◌∷◌, ◌++◌, [], ℕ, List, Some, slice_get, OnOk};
ghost use Rattle.std.specs.Prelude.{IfOk, OnErr};
ghost use Rattle.object_store.specs.declared.world.Room.{Room};
ghost use Rattle.kept_entries.specs.declared.entries.Entry.{Entry};
ghost use Rattle.room_rules.specs.Calls.{AreActorsOnce};
ghost use Rattle.ruled_tick.specs.inner.Ticked.{moves_in, AreMoves, AreTicked, IsReadyToTick, IsTicked};
ghost use Rattle.ruled_tick.specs.inner.Ticked.{IsTickedTable, HasMemory};

use creep_move::settle_moves;
use game_tables::Action;
use intent_book::{Intent, Intents};
use kept_entries::Entry;
use object_store::{Room, RoomTable, Terrain};
use spawn_rules::hatch;
use std::alloc::{AllocError as NoMemory, Global};
use upkeep_rules::{age_controllers, upkeep_first, upkeep_last};

/// The rooms in which creeps moved, by those of the entries that are moves, and that were kept up.
pub fn tick_all(alloc: Global, rooms: Vec<Room>, entries: &[Entry]) -> Result<Vec<Room>, NoMemory>
    requires ready { (index : ℕ) (room : Room) → slice_get rooms.items index ≡ Some room
        → IsReadyToTick room.table }
    requires once { (index : ℕ) → AreActorsOnce (moves_in index entries.now) }
    ensures { IfOk result (λ ticked. AreTicked entries.now rooms.items ticked.items) }
{
    let moves = moves_by_room(alloc, rooms.len(), entries)?;
    let mut ticked = Vec::with_capacity(alloc, rooms.len())?;
    for room in rooms {
        let index = ticked.len();
        ticked.push(tick_room(room, moves[index].as_slice())?)?;
    }
    Ok(ticked)
}

// The moves of each room.
fn moves_by_room(alloc: Global, rooms: usize, entries: &[Entry]) -> Result<Vec<Intents>, NoMemory>
    ensures { IfOk result (λ moves. AreMoves rooms entries.now moves.items) }
{
    let mut moves = no_moves(alloc, rooms)?;
    for entry in entries {
        add_move(&mut moves, entry)?;
    }
    Ok(moves)
}

// No moves for so many rooms.
fn no_moves(alloc: Global, rooms: usize) -> Result<Vec<Intents>, NoMemory>
    ensures { IfOk result (λ moves. AreMoves rooms [] moves.items) }
{
    let mut moves = Vec::with_capacity(alloc, rooms)?;
    for _ in 0..rooms {
        moves.push(Intents::new(alloc))?;
    }
    Ok(moves)
}

// Adds an entry to the moves of its room, if it is a move and there is such a room.
fn add_move(moves: &mut [Intents], entry: &Entry) -> Result<(), NoMemory>
    ensures { OnOk result ((rooms : ℕ) (done : List Entry) → AreMoves rooms done moves.old
        → AreMoves rooms (done ++ entry.now ∷ []) moves.new) }
{
    let index = entry.room as usize;
    if index < moves.len() && matches!(entry.intent.action, Action::Move) {
        moves[index].push(entry.intent)?;
    }
    Ok(())
}

// A room after movement and upkeep.
fn tick_room(room: Room, moves: &[Intent]) -> Result<Room, NoMemory>
    requires ready { IsReadyToTick room.table }
    requires once { AreActorsOnce moves.now }
    ensures { IfOk result (IsTicked moves.now room) }
{
    let Room {
        name,
        terrain,
        table,
    } = room;
    let table = tick_table(&terrain, table, moves)?;
    Ok(Room {
        name,
        terrain,
        table,
    })
}

/// The table of a room in which creeps moved, by these moves all at once, and that was kept up, by the steps
/// of upkeep in their order. What was done to its objects is forgotten. A room that has no serials for what
/// the steps may make is refused as one without memory.
pub fn tick_table(
    ground: &Terrain,
    mut table: RoomTable,
    moves: &[Intent],
) -> Result<RoomTable, NoMemory>
    requires ready { IsReadyToTick table }
    requires once { AreActorsOnce moves.now }
    ensures { IfOk result (IsTickedTable moves.now ground.now table) }
{
    settle_moves(ground, &mut table, moves);
    // No more objects stand in order of their ids than stood and were made.
    table.stands_in_order();
    let most_left = 2 * u64::from(table.len());
    take_memory(&mut table, most_left)?;
    upkeep_first(&mut table);
    table.stands_in_order();
    let most_hatched = u64::from(table.len());
    take_memory(&mut table, most_hatched)?;
    hatch(ground, &mut table);
    age_controllers(&mut table);
    table.stands_in_order();
    let most_made = u64::from(table.len()) + MOST_ARRIVALS;
    take_memory(&mut table, most_made)?;
    upkeep_last(&mut table);
    table.clear_sums();
    table.stands_in_order();
    Ok(table)
}

// Takes memory for so many objects, for the piles that upkeep may make and the creeps that may come, where
// there isn't as much. A room without serials for so many is refused as one without memory; one that keeps
// the rules has at most 7,500 objects.
fn take_memory(table: &mut RoomTable, many: u64) -> Result<(), NoMemory>
    requires few { many < 2 ^ 34 }
    ensures taken { OnOk result (HasMemory many table.old table.new) }
    ensures unchanged { OnErr result (table.new ≡ table.old) }
{
    let most = u64::from(u32::MAX);
    if u64::from(table.next()) + many > most || u64::from(table.len()) + many > most {
        return Err(NoMemory);
    }
    table.reserve(many)
}

// A creep may come to each border tile of a room.
const MOST_ARRIVALS: u64 = 196;
