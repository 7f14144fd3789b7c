// Worlds of two rooms with a pile each, and of the players 7 and 9; and modules.
ghost use Rattle.std.specs.Prelude.{◌≡◌, length, IfOk};

use game_tables::Body;
use object_store::{Account, Bytes, Ground, Kind, Object, RoomName, RoomTable, Terrain, World};
use std::alloc::{AllocError, Global};

/// A module whose function `loop` does nothing.
pub const IDLE: [u8; 34] = [
    0, 97, 115, 109, 1, 0, 0, 0, 1, 4, 1, 96, 0, 0, 3, 2, 1, 0, 7, 8, 1, 4, 108, 111, 111, 112, 0,
    0, 10, 4, 1, 2, 0, 11,
];

/// A module whose function `loop` is one `unreachable`.
pub const TRAPPED: [u8; 35] = [
    0, 97, 115, 109, 1, 0, 0, 0, 1, 4, 1, 96, 0, 0, 3, 2, 1, 0, 7, 8, 1, 4, 108, 111, 111, 112, 0,
    0, 10, 5, 1, 3, 0, 0, 11,
];

/// What differs between the worlds: of the second room the serial of its next object and the energy of its
/// pile, and of player 9 the bucket and the memory text.
#[derive(Clone, Copy)]
pub struct Parts {
    pub next: u32,
    pub energy: u64,
    pub bucket: u32,
    pub memory: &'static [u8],
}

/// Those of most of the worlds.
pub const PARTS: Parts = Parts {
    next: 3,
    energy: 5,
    bucket: 5,
    memory: b"nine",
};

/// A pile on a tile, or what no pile is.
pub fn pile(id: u64, x: u8, energy: u64, owner: u32) -> Object {
    Object {
        id,
        kind: Kind::Pile,
        x,
        y: 20,
        owner,
        hits: 0,
        energy,
        timer: 0,
        extra: 0,
        progress: 0,
        other: 0,
        other_ticks: 0,
        body: Body::new(),
    }
}

/// An account of a player.
pub fn account(
    alloc: Global,
    player: u32,
    bucket: u32,
    memory: &[u8],
) -> Result<Account, AllocError>
    ensures { IfOk result (λ account. account.player ≡ player) }
{
    Ok(Account {
        player,
        limit: 20,
        bucket,
        points: 6,
        memory: Bytes::of(alloc, memory)?,
    })
}

// Plain ground with walls at the corners.
fn terrain(alloc: Global) -> Result<Terrain, AllocError> {
    let mut grounds = vec![in alloc; Ground::Plain; 2500]?;
    grounds[0] = Ground::Wall;
    grounds[49] = Ground::Wall;
    grounds[2450] = Ground::Wall;
    grounds[2499] = Ground::Wall;
    Terrain::of(alloc, &grounds)
}

// Adds a room with a pile, where it has its place.
fn add_room(
    alloc: Global,
    world: &mut World,
    index: u8,
    next: u32,
    energy: u64,
) -> Result<(), AllocError> {
    let pile = pile(u64::from(index) * (1 << 32) + 1, 10, energy, 0);
    let table = RoomTable::of(alloc, u32::from(index), next, vec![in alloc; pile]?)?;
    let name = RoomName {
        column: i32::from(index),
        row: 0,
    };
    if world.rooms() == u32::from(index) {
        world.push_room(name, terrain(alloc)?, table)?;
    }
    Ok(())
}

/// The world of this tick with these parts.
pub fn world_of(alloc: Global, tick: u64, parts: Parts) -> Result<World, AllocError> {
    let mut world = World::empty(alloc, tick);
    world.push_account(account(alloc, 7, 5, b"")?)?;
    world.push_account(account(alloc, 9, parts.bucket, parts.memory)?)?;
    add_room(alloc, &mut world, 0, 3, 5)?;
    add_room(alloc, &mut world, 1, parts.next, parts.energy)?;
    Ok(world)
}
