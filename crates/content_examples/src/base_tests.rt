// The base contents of journals: written and read back, and those that are refused.
use crate::worlds::all_kinds;
use object_store::World;
use room_terrain::{Ground, RoomName};
use std::alloc::{AllocError, Global};
use std::test::Fail;
use tick_journal::{read_base_form, write_base};
use world_bytes::BytesFault;

// The bytes before the tiles of a world of one room, W0S2, at tick 7, and those behind them: no object,
// and no account.
const FRONT: [u8; 28] = [
    0x53, 0x57, 0x53, 0x4A, 1, 0, 0, 0, 7, 0, 0, 0, 0, 0, 0, 0, 1, 0, 0, 0, 255, 255, 255, 255, 2,
    0, 0, 0,
];

const BACK: [u8; 16] = [0, 0, 0, 0, 1, 0, 0, 0, 0, 0, 0, 0, 0, 0, 0, 0];

// An account of player 1 behind its number.
const ACCOUNT: [u8; 29] = [
    1, 0, 0, 0, 1, 0, 0, 0, 20, 0, 0, 0, 5, 0, 0, 0, 6, 0, 0, 0, 0, 0, 0, 0, 1, 0, 0, 0, 250,
];

// Bytes of that world and what is wrong with them: the mark, the version, the tick, no room, the column,
// the row, the ground of the first and of the last tile, an index, a serial, an account that is not there.
const DAMAGES: [(usize, u8); 11] = [
    (3, 0x4B),
    (4, 2),
    (14, 0x20),
    (16, 0),
    (23, 0),
    (24, 128),
    (28, 3),
    (2527, 3),
    (2528, 1),
    (2532, 0),
    (2540, 1),
];

// Adds the content of that world.
fn put_small(content: &mut Vec<u8>) -> Result<(), AllocError> {
    content.extend_from_slice(&FRONT)?;
    for _ in 0..2500 {
        content.push(0)?;
    }
    content.extend_from_slice(&BACK)
}

// That content, of which one byte is another.
fn small(alloc: Global, damage: Option<(usize, u8)>) -> Result<Vec<u8>, AllocError> {
    let mut content = Vec::new(alloc);
    put_small(&mut content)?;
    if let Some((at, byte)) = damage
        && at < content.len()
    {
        content[at] = byte;
    }
    Ok(content)
}

fn is_malformed(alloc: Global, content: &[u8]) -> bool {
    match read_base_form(alloc, content) {
        Ok(_) => false,
        Err(fault) => fault == BytesFault::Malformed,
    }
}

// The content of the world of all kinds.
fn written(alloc: Global) -> Result<Vec<u8>, Fail> {
    Ok(write_base(alloc, &all_kinds(alloc)?.world)?)
}

// Whether a world is written as this content.
fn is_written(alloc: Global, world: &World, content: &[u8]) -> bool {
    match write_base(alloc, world) {
        Ok(again) => again.as_slice() == content,
        Err(_) => false,
    }
}

// The tick, the number of rooms and that of accounts of a world.
fn sizes(world: &World) -> (u64, u32, u32) {
    (world.tick(), world.rooms(), world.accounts())
}

// How many objects the second room has, and the hits and the number of parts of its creep.
fn second_room(world: &World) -> Option<(u32, u32, u64)> {
    let table = &world.room_list().get(1)?.table;
    let creep = table.get(4_294_967_299)?;
    Some((table.len(), creep.hits, creep.body.len()))
}

// Whether the world of a content is that of all kinds, and is written as that content again.
fn has_all_kinds(alloc: Global, content: &[u8]) -> bool {
    match read_base_form(alloc, content) {
        Ok(world) => {
            sizes(&world) == (3, 2, 2)
                && second_room(&world) == Some((10, 200, 2))
                && is_written(alloc, &world, content)
        }
        Err(_) => false,
    }
}

#[test]
fn a_world_comes_back(rt: HostRuntime) -> Result<(), Fail> {
    let content = written(rt.alloc())?;
    assert!(rt; has_all_kinds(rt.alloc(), &content));
    Ok(())
}

// The name of the first room, the ground of its last tile, and how many objects it has.
fn first_room(world: &World) -> Option<(RoomName, Ground, u32)> {
    let room = world.room_list().first()?;
    Some((room.name, room.terrain.at(49, 49), room.table.len()))
}

// Whether the world of a content is the small one, and is written as that content again.
fn is_small(alloc: Global, content: &[u8]) -> bool {
    let name = RoomName { column: -1, row: 2 };
    match read_base_form(alloc, content) {
        Ok(world) => {
            sizes(&world) == (7, 1, 0)
                && first_room(&world) == Some((name, Ground::Plain, 0))
                && is_written(alloc, &world, content)
        }
        Err(_) => false,
    }
}

#[test]
fn a_small_world_comes_back(rt: HostRuntime) -> Result<(), Fail> {
    let content = small(rt.alloc(), None)?;
    assert!(rt; is_small(rt.alloc(), &content));
    Ok(())
}

// The content of the small world with a byte behind it.
fn longer(alloc: Global) -> Result<Vec<u8>, AllocError> {
    let mut content = small(alloc, None)?;
    content.push(0)?;
    Ok(content)
}

// Whether the content of the small world is refused with this damage.
fn is_refused(alloc: Global, damage: (usize, u8)) -> Result<bool, AllocError> {
    Ok(is_malformed(alloc, &small(alloc, Some(damage))?))
}

#[test]
fn a_content_is_read_to_its_end(rt: HostRuntime) -> Result<(), Fail> {
    let alloc = rt.alloc();
    for damage in DAMAGES {
        assert!(rt; is_refused(alloc, damage)?, "{damage:?}");
    }
    let content = longer(alloc)?;
    assert!(rt; is_malformed(alloc, &content));
    Ok(())
}

// The content of the small world with one account, of the player of this number.
fn with_account(alloc: Global, player: u8) -> Result<Vec<u8>, AllocError> {
    let mut content = small(alloc, None)?;
    content.truncate(2540);
    let mut account = ACCOUNT;
    account[4] = player;
    content.extend_from_slice(&account)?;
    Ok(content)
}

// The limit, the bucket and the points of player 1.
fn first_player(world: &World) -> Option<(u32, u32, u64)> {
    let account = world.account(1)?;
    Some((account.limit, account.bucket, account.points))
}

// Whether the world of a content has the account of player 1, and is written as that content again.
fn has_player(alloc: Global, content: &[u8]) -> bool {
    match read_base_form(alloc, content) {
        Ok(world) => {
            first_player(&world) == Some((20, 5, 6)) && is_written(alloc, &world, content)
        }
        Err(_) => false,
    }
}

// Whether the small world has player 1, and is refused with player 0.
fn begin_with_one(alloc: Global) -> Result<(bool, bool), AllocError> {
    let has_one = has_player(alloc, &with_account(alloc, 1)?);
    Ok((has_one, is_malformed(alloc, &with_account(alloc, 0)?)))
}

#[test]
fn players_begin_with_one(rt: HostRuntime) -> Result<(), Fail> {
    assert!(rt; begin_with_one(rt.alloc())? == (true, true));
    Ok(())
}
