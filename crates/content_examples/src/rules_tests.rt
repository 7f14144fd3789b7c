// Whether worlds keep the rules, as they are stored.
ghost use Rattle.std.specs.Prelude.{◌≡◌, [], IfOk};

use crate::worlds::all_kinds;
use game_tables::Body;
use object_store::{Kind, Object, RoomTable, World};
use rule_check::keeps_rules;
use std::alloc::{AllocError, Global};
use std::test::Fail;

// A pile of 1 on a tile, or on none.
fn pile(x: u8) -> Object {
    Object {
        id: 1,
        kind: Kind::Pile,
        x,
        y: 20,
        owner: 0,
        hits: 0,
        energy: 1,
        timer: 0,
        extra: 0,
        progress: 0,
        other: 0,
        other_ticks: 0,
        body: Body::new(),
    }
}

// Adds a room of this table, with the name and the ground of the first room of a file, where it has its
// place.
fn add_room(alloc: Global, world: &mut World, file: &World, table: RoomTable) -> Result<(), Fail> {
    let room = file.room_list().first().ok_or("no room")?;
    if world.rooms() == table.index() && world.rooms() < 400 {
        world.push_room(room.name, room.terrain.copy(alloc)?, table)?;
    }
    Ok(())
}

// The table of the first room, where a pile stands.
fn pile_table(alloc: Global, x: u8) -> Result<RoomTable, AllocError> {
    RoomTable::of(alloc, 0, 2, vec![in alloc; pile(x)]?)
}

// A world of one room, with the name and the ground of that of a file, where a pile stands.
fn with_pile(alloc: Global, file: &World, x: u8) -> Result<World, Fail> {
    let mut world = World::empty(alloc, 0);
    add_room(alloc, &mut world, file, pile_table(alloc, x)?)?;
    Ok(world)
}

// That world with a second room of the same name, without objects.
fn with_a_room_twice(alloc: Global, file: &World) -> Result<World, Fail> {
    let mut twice = with_pile(alloc, file, 20)?;
    add_room(
        alloc,
        &mut twice,
        file,
        RoomTable::of(alloc, 1, 1, Vec::new(alloc))?,
    )?;
    Ok(twice)
}

// Whether a world keeps the rules.
fn is_kept(alloc: Global, world: &World) -> Result<bool, Fail> {
    Ok(keeps_rules(alloc, world)?)
}

// The same of the world without rooms.
fn is_kept_empty(alloc: Global) -> Result<bool, Fail> {
    is_kept(alloc, &World::empty(alloc, 0))
}

// The same of the world with a pile.
fn is_kept_with_pile(alloc: Global, file: &World, x: u8) -> Result<bool, Fail> {
    is_kept(alloc, &with_pile(alloc, file, x)?)
}

// The same of the world with a room twice.
fn is_kept_twice(alloc: Global, file: &World) -> Result<bool, Fail> {
    is_kept(alloc, &with_a_room_twice(alloc, file)?)
}

// The same of a file's world and of those that have its first room: with a pile on a tile, on none, and
// with that room twice.
fn are_kept(alloc: Global, file: &World) -> Result<[bool; 4], Fail> {
    Ok([
        is_kept(alloc, file)?,
        is_kept_with_pile(alloc, file, 49)?,
        is_kept_with_pile(alloc, file, 50)?,
        is_kept_twice(alloc, file)?,
    ])
}

#[test]
fn stored_worlds_keep_the_rules_or_not(rt: HostRuntime) -> Result<(), Fail> {
    assert!(rt; is_kept_empty(rt.alloc())?);
    let file = all_kinds(rt.alloc())?;
    assert!(rt; are_kept(rt.alloc(), &file.world)? == [true, true, false, false]);
    Ok(())
}
