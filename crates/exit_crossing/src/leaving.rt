// The creeps that cross.
ghost use Rattle.std.specs.Prelude.{◌≡◌, ◌<◌, ◌++◌, ℕ, Some, length, map, slice_get, IfOk, OnOk, OnErr};
ghost use Rattle.std.specs.List.{AllByRecursion};
ghost use Rattle.std.specs.List.Sorted.{IsPermutation, IsNonDecreasingBy};
ghost use Rattle.room_table.specs.Tables.{IsOnTile, IsRising};
ghost use Rattle.object_store.specs.Stored.{Stored, HaveRisingTables};
ghost use Rattle.object_store.specs.declared.world.Room.{Room};
ghost use Rattle.world_rules.specs.World.{world_of};
ghost use Rattle.world_rules.specs.Crossings.{crossers as crossers_in_world, is_crosser};
ghost use Rattle.world_rules.specs.Crossings.{is_edge as is_edge_number};
ghost use Rattle.exit_crossing.specs.Crossing.{AreCrossers, AreIdsApart, crossers_of, rested_table};
ghost use Rattle.exit_crossing.specs.Crossing.{rested_room};
ghost use Rattle.exit_crossing.specs.inner.Resting.{rested_at};
ghost use Rattle.exit_crossing.specs.inner.Leaving.{id_of, crossers_among};

use game_tables::is_creep;
use object_store::{Object, Room, RoomTable};
use std::alloc::{AllocError as NoMemory, Global};

/// A creep that moved onto a border tile, and the index of its room.
#[derive(Clone, Copy)]
pub struct Crosser {
    pub id: u64,
    pub room: u32,
}

/// The creeps of a room that moved onto border tiles, in rising id; then none of the room's creeps has moved.
pub fn crossers(alloc: Global, index: u32, room: &mut RoomTable) -> Result<Vec<Crosser>, NoMemory>
    requires index { room.old.index ≡ index }
    requires tiles { AllByRecursion IsOnTile room.old.objects }
    ensures list { IfOk result (λ list. list.items ≡ crossers_of room.old) }
    ensures rested { OnOk result (room.new ≡ rested_table room.old) }
    ensures unchanged { OnErr result (room.new ≡ room.old) }
{
    let mut list = Vec::new(alloc);
    add_crossers(index, room, &mut list)?;
    rest_all(room);
    Ok(list)
}

// Adds the crossers of a room to others.
fn add_crossers(index: u32, room: &RoomTable, list: &mut Vec<Crosser>) -> Result<(), NoMemory>
    requires { room.now.index ≡ index }
    ensures list { OnOk result (list.new.items ≡ list.old.items ++ crossers_of room.now) }
    ensures rising { IsRising room.now.objects }
{
    for object in room.objects() {
        if crosses(object) {
            list.push(Crosser {
                id: object.id,
                room: index,
            })?;
        }
    }
    Ok(())
}

// Whether it is a creep that moved onto a border tile.
fn crosses(object: &Object) -> bool
    ensures { result ≡ is_crosser object.now }
{
    is_creep(object.kind) && object.other_ticks == 1 && (is_edge(object.x) || is_edge(object.y))
}

// Whether a coordinate is the first or the last of a row or a column.
fn is_edge(z: u8) -> bool
    ensures { result ≡ is_edge_number z }
{
    z == 0 || z == 49
}

// Makes all creeps of a room ones that have not moved.
fn rest_all(room: &mut RoomTable)
    requires { AllByRecursion IsOnTile room.old.objects }
    ensures { room.new ≡ rested_table room.old }
{
    for place in 0..room.len() {
        rest_one(room, place);
    }
}

// Makes the object at a place of the room, if it is a creep, one that has not moved.
fn rest_one(room: &mut RoomTable, place: u32)
    requires inside { place < length room.old.objects }
    requires tiles { AllByRecursion IsOnTile room.old.objects }
    ensures { room.new ≡ record room.old { objects = rested_at place room.old.objects } }
{
    room.stands_in_order();
    let Some(object) = room.nth(place) else {
        unreachable!()
    };
    if is_creep(object.kind) && object.other_ticks != 0 {
        let resting = Object {
            other_ticks: 0,
            ..*object
        };
        room.set(resting);
    }
}

/// The crossers of all rooms, in rising id over the whole world; then no creep has moved.
pub fn all_crossers(alloc: Global, rooms: &mut [Room]) -> Result<Vec<Crosser>, NoMemory>
    requires places { (index : ℕ) (room : Room) → slice_get rooms.old index ≡ Some room
        → room.table.index ≡ index }
    requires tiles { AllByRecursion (λ room. AllByRecursion IsOnTile room.table.objects) rooms.old }
    requires ids { AreIdsApart rooms.old }
    ensures list { IfOk result (λ list. (stored : Stored) → stored.rooms ≡ rooms.old
        → map (λ crosser. crosser.id) list.items ≡ crossers_in_world (world_of stored)) }
    ensures rested { OnOk result (rooms.new ≡ map rested_room rooms.old) }
    ensures crossers { IfOk result (λ list. AreCrossers rooms.new list.items) }
    ensures unchanged { OnErr result (rooms.new ≡ rooms.old) }
{
    let all = ordered(alloc, rooms)?;
    rest_rooms(rooms);
    Ok(all)
}

// The crossers of all rooms, in an order in which no id falls.
fn ordered(alloc: Global, rooms: &[Room]) -> Result<Vec<Crosser>, NoMemory>
    ensures same { IfOk result (λ all. IsPermutation (crossers_among rooms.now) all.items) }
    ensures order { IfOk result (λ all. IsNonDecreasingBy id_of all.items) }
    ensures rising { IfOk result (λ all. HaveRisingTables rooms.now) }
{
    let mut all = gather(alloc, rooms)?;
    all.sort_unstable_by_key(|crosser| crosser.id);
    Ok(all)
}

// The crossers of all rooms, room by room.
fn gather(alloc: Global, rooms: &[Room]) -> Result<Vec<Crosser>, NoMemory>
    ensures list { IfOk result (λ all. all.items ≡ crossers_among rooms.now) }
    ensures rising { IfOk result (λ all. HaveRisingTables rooms.now) }
{
    let mut all = Vec::new(alloc);
    for room in rooms {
        add_crossers(room.table.index(), &room.table, &mut all)?;
    }
    Ok(all)
}

// Makes all creeps of the rooms ones that have not moved.
fn rest_rooms(rooms: &mut [Room])
    requires { AllByRecursion (λ room. AllByRecursion IsOnTile room.table.objects) rooms.old }
    ensures { rooms.new ≡ map rested_room rooms.old }
{
    for place in 0..rooms.len() {
        rest_all(&mut rooms[place].table);
    }
}
