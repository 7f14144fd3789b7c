// The moves of a room, all at once.
ghost use Rattle.std.specs.Prelude.{◌≡◌, ◌<◌, ℕ, length, slice_index};
ghost use Rattle.std.specs.FinMap.{values};
ghost use Rattle.std.specs.List.{AllByRecursion};
ghost use Rattle.room_table.specs.Tables.{IsOnTile, IsRising};
ghost use Rattle.world_rules.specs.RoomParts.{table_part};
ghost use Rattle.world_rules.specs.Movement.{movers};
ghost use Rattle.world_rules.specs.Moves.{candidates, moved};
ghost use Rattle.creep_move.specs.inner.Decided.{IsDecided};
ghost use Rattle.creep_move.specs.inner.Landing.{AreAfter, AreGoers};
ghost use Rattle.creep_move.specs.inner.Walk.{IsFree};
ghost use Rattle.room_rules.specs.Calls.{IsMovable, AreActorsOnce};

use crate::arrivals::{NOBODY, arrivals};
use crate::landing::land;
use crate::walk::{hold, mark_standing, release};
use intent_book::Intent;
use object_store::{RoomTable, Terrain};

/// Moves the creeps of a room. Of several that would step to a tile the one of the least id wins; of the
/// winners those move whose tile has no creep or one that moves too. A creep that moves has moved
/// (`other_ticks` 1) and is tired (`extra`) by its weight on the ground of its new tile, and a road there
/// wears by 1 for each of its parts, down to 1.
///
/// `moves` are the entries to move that count, in any order. One whose checks fail does nothing, as does one
/// of a creep that is not in the room, and one to a tile outside of the room, of a wall, or obstructed. It
/// takes time by the objects of the room and the moves, and no memory.
pub fn settle_moves(terrain: &Terrain, room: &mut RoomTable, moves: &[Intent])
    requires movable { IsMovable room.old }
    requires once { AreActorsOnce moves.now }
    ensures rule { table_part terrain.now room.new ≡ moved moves.now (table_part terrain.now room.old) }
    ensures index { room.new.index ≡ room.old.index }
    ensures next { room.new.next ≡ room.old.next }
    ensures spare { room.new.spare ≡ room.old.spare }
    ensures tallies { room.new.tallies ≡ room.old.tallies }
    ensures tiles { AllByRecursion IsOnTile room.new.objects }
{
    // The objects rise by their ids, so that those of the room's part are those of its table.
    room.stands_in_order();
    if moves.is_empty() {
        return;
    }
    settle(terrain, room, moves);
}

// The same where there are moves.
fn settle(terrain: &Terrain, room: &mut RoomTable, moves: &[Intent])
    requires movable { IsMovable room.old }
    requires once { AreActorsOnce moves.now }
    ensures rule { table_part terrain.now room.new ≡ moved moves.now (table_part terrain.now room.old) }
    ensures index { room.new.index ≡ room.old.index }
    ensures next { room.new.next ≡ room.old.next }
    ensures spare { room.new.spare ≡ room.old.spare }
    ensures tallies { room.new.tallies ≡ room.old.tallies }
    ensures tiles { AllByRecursion IsOnTile room.new.objects }
{
    let mut comes: [u16; TILES] = all_from(NOBODY);
    let mut best: [u64; TILES] = all_of(0);
    let mut held: [bool; TILES] = all_free();
    decide(terrain, room, moves, &mut comes, &mut best, &mut held);
    // The objects rise by their ids, so that those of the room's part are those of its table.
    room.stands_in_order();
    land_all(terrain, room, &comes, &best, &held);
}

// Writes for each tile from where its winner comes, which creep that is, and whether a creep stays there.
fn decide(
    terrain: &Terrain,
    room: &RoomTable,
    moves: &[Intent],
    comes: &mut [u16],
    best: &mut [u64],
    held: &mut [bool],
)
    requires movable { IsMovable room.now }
    requires once { AreActorsOnce moves.now }
    requires comes { length comes.old ≡ 2500 }
    requires best { length best.old ≡ 2500 }
    requires held { length held.old ≡ 2500 }
    requires nobody { (t : ℕ) → t < 2500 → slice_index comes.old t ≡ 2500 }
    requires none { (t : ℕ) → IsFree held.old t }
    ensures { IsDecided (movers (values (table_part terrain.now room.now).objects)
        (candidates (table_part terrain.now room.now) moves.now)) comes.new best.new held.new }
{
    arrivals(terrain, room, moves, comes, best);
    mark_standing(room.objects(), held);
    release(comes, held);
    hold(comes, held);
}

// The tiles of a room.
const TILES: usize = 2500;

// The same tile for all.
fn all_from<const N: usize>(from: u16) -> [u16; N]
    ensures { (t : ℕ) → t < N → slice_index result t ≡ from }
{
    [from; N]
}

// The same creep for all.
fn all_of<const N: usize>(creep: u64) -> [u64; N] {
    [creep; N]
}

// No tile held.
fn all_free<const N: usize>() -> [bool; N]
    ensures { (t : ℕ) → IsFree result t }
{
    [false; N]
}

// Lets each creep step that wins a tile and is not held back.
fn land_all(terrain: &Terrain, room: &mut RoomTable, comes: &[u16], best: &[u64], held: &[bool])
    requires comes { length comes.now ≡ 2500 }
    requires best { length best.now ≡ 2500 }
    requires held { length held.now ≡ 2500 }
    requires rising { IsRising room.old.objects }
    requires movable { IsMovable room.old }
    requires goers { AreGoers room.old.objects comes.now best.now held.now }
    ensures after { AreAfter terrain.now room.old.objects comes.now best.now held.now 2500 room.new.objects }
    ensures index { room.new.index ≡ room.old.index }
    ensures next { room.new.next ≡ room.old.next }
    ensures spare { room.new.spare ≡ room.old.spare }
    ensures tallies { room.new.tallies ≡ room.old.tallies }
    ensures tiles { AllByRecursion IsOnTile room.new.objects }
{
    for tile in 0..TILES {
        // The objects rise by their ids, so that each is found by its own.
        room.stands_in_order();
        let from = comes[tile] as usize;
        if from < TILES && !held[from] {
            land(
                terrain,
                room,
                best[tile],
                (tile % 50) as u8,
                (tile / 50) as u8,
            );
        }
    }
}
