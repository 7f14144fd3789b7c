// The world.
ghost use Rattle.std.specs.Prelude.{◌≡◌, ◌≤◌, [], IfOk, OnOk};
ghost use Rattle.world_gen.specs.Generator.{account, accounts_to, generated, players_of, rooms_from};

use crate::NoMemory;
use crate::ground::drawn_terrain;
use crate::rooms::{drawn_table, name_of};
use object_store::{Account, Bytes, World};
use std::alloc::Global;

/// The players at most.
const MOST_PLAYERS: u32 = 8;

/// The world of a seed and so many rooms.
pub fn generate(alloc: Global, seed: u64, rooms: u32) -> Result<World, NoMemory>
    requires some { 1 ≤ rooms }
    requires most { rooms ≤ 400 }
    ensures { IfOk result (λ world. world ≡ generated seed rooms) }
{
    let mut world = World::empty(alloc, 0);
    let players = players_of(rooms);
    add_rooms(alloc, &mut world, seed, rooms, players)?;
    add_accounts(alloc, &mut world, players)?;
    Ok(world)
}

/// How many players a world of so many rooms has.
pub(crate) fn players_of(rooms: u32) -> u32
    ensures { result ≡ players_of rooms }
{
    rooms.min(MOST_PLAYERS)
}

// Draws rooms for a world that has none.
#[tactic(auto, using(crate::proofs::Drawn::state_none, crate::proofs::Listed::no_rooms_yet, crate::proofs::Listed::room_at_place, crate::proofs::Listed::rooms_fit, crate::proofs::Listed::room_next, crate::proofs::Listed::room_state))]
fn add_rooms(
    alloc: Global,
    world: &mut World,
    seed: u64,
    rooms: u32,
    players: u32,
) -> Result<(), NoMemory>
    requires none { world.old.rooms ≡ [] }
    requires most { rooms ≤ 400 }
    ensures { OnOk result (world.new ≡ record world.old { rooms = rooms_from seed players rooms }) }
{
    let mut state = seed;
    for index in 0..rooms {
        let terrain = drawn_terrain(alloc, &mut state)?;
        let table = drawn_table(alloc, &mut state, index, players)?;
        world.push_room(name_of(index), terrain, table)?;
    }
    Ok(())
}

// Adds the accounts of the first players to a world that has none.
#[tactic(auto, using(crate::proofs::Listed::no_accounts_yet, crate::proofs::Listed::account_last, crate::proofs::Listed::accounts_fit, crate::proofs::Listed::account_next))]
fn add_accounts(alloc: Global, world: &mut World, players: u32) -> Result<(), NoMemory>
    requires none { world.old.accounts ≡ [] }
    requires most { players ≤ 8 }
    ensures { OnOk result (world.new ≡ record world.old { accounts = accounts_to players }) }
{
    for before in 0..players {
        world.push_account(account_of(alloc, before + 1))?;
    }
    Ok(())
}

fn account_of(alloc: Global, player: u32) -> Account
    ensures { result ≡ account player }
{
    Account {
        player,
        limit: 20,
        bucket: 1_000,
        points: 0,
        memory: Bytes::new(alloc),
    }
}
