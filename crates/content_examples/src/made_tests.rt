// Worlds of a seed.
use object_store::{Ground, Kind, Room, World};
use std::alloc::Global;
use std::test::Fail;
use world_gen::{generate, generate_uploads, player_module};

// The world of seed 7 and nine rooms.
fn nine_rooms(alloc: Global) -> Result<World, Fail> {
    Ok(generate(alloc, 7, 9)?)
}

// How many tiles of a room are swamp.
fn swamps_of(room: &Room) -> usize {
    room.terrain
        .grounds()
        .iter()
        .filter(|ground| **ground == Ground::Swamp)
        .count()
}

// How many objects and swamps a room has, and the kind, the tile and the energy of its source.
fn seen(world: &World, index: u32) -> Option<(u32, usize, (Kind, u8, u8, u64))> {
    let room = world.room_list().get(index as usize)?;
    let source = room.table.get(u64::from(index) * (1 << 32) + 2)?;
    let place = (source.kind, source.x, source.y, source.energy);
    Some((room.table.len(), swamps_of(room), place))
}

// The ground inside the first room.
fn first_ground(world: &World) -> Option<Ground> {
    let room = world.room_list().first()?;
    Some(room.terrain.at(1, 1))
}

// The values are those of another writing of the generator.
#[test]
fn nine_rooms_of_seed_7(rt: HostRuntime) -> Result<(), Fail> {
    let world = nine_rooms(rt.alloc())?;
    for (index, x, y, objects, swamps) in [
        (0_u32, 34_u8, 24_u8, 4_u32, 285_usize),
        (1, 15, 23, 4, 256),
        (8, 30, 21, 2, 315),
    ] {
        let source = (Kind::Source, x, y, 1_500);
        assert!(rt; seen(&world, index) == Some((objects, swamps, source)));
    }
    assert!(rt; first_ground(&world) == Some(Ground::Plain));
    assert!(rt; (world.tick(), world.rooms(), world.accounts()) == (0, 9, 8));
    Ok(())
}

// How many imports and exports the module of the players has.
fn module_counts(alloc: Global) -> Result<(u64, u64), Fail> {
    let whole = player_module(alloc)?;
    Ok((whole.imports.len(), whole.exports.len()))
}

#[test]
fn players_upload_one_module(rt: HostRuntime) -> Result<(), Fail> {
    assert!(rt; module_counts(rt.alloc())? == (7, 1));
    let stream = generate_uploads(rt.alloc(), 7, 9)?;
    assert!(rt; stream.len() == 8 * (16 + 496));
    let front = [0_u8, 0, 0, 0, 0, 0, 0, 0, 1, 0, 0, 0, 240, 1, 0, 0];
    assert!(rt; &stream[..16] == front.as_slice());
    Ok(())
}
