// One tick of the whole world.
ghost use Rattle.std.specs.Prelude.{◌≡◌, IsTrue, ◌<◌, ◌≤◌, ◌-◌, ◌+◌, ◌^◌, ℕ, List, [], map, length, IfOk};
ghost use Rattle.std.specs.Prelude.{OnOk};
ghost use Rattle.object_store.specs.Stored.{AreRising};
ghost use Rattle.intent_book.specs.declared.intent.Intent.{Intent};
ghost use Rattle.kept_entries.specs.Turns.{AreKept};
ghost use Rattle.world_rules.specs.World.{world_of};
ghost use Rattle.world_rules.specs.Tick.{book, plain_world, gained, account_raised, points_after};
ghost use Rattle.world_rules.specs.Sound.{IsSound, HaveSerials};
ghost use Rattle.exit_crossing.specs.Crossing.{AreForgotten};
ghost use Rattle.ruled_tick.specs.inner.Entered.{AreGains};
ghost use Rattle.ruled_tick.specs.inner.Ticked.{raised_by, IsRuledRooms, AreInPlace};

use crate::act::{enter, widen_all};
use crate::gains::add_gain;
use crate::rooms::tick_all;
use exit_crossing::{Crosser, all_crossers, cross};
use game_tables::most_points;
use intent_book::Intent;
use kept_entries::{Entry, kept_entries};
use object_store::{Account, Bytes, Room, World};
use std::alloc::{AllocError as NoMemory, Global};
use world_roster::Roster;

/// The world after one tick with these entries: each account has the points that its player gained, up
/// to 2^53, with the bucket and the memory text as they were. Of what was done to objects nothing is left.
///
/// Of the entries that fit the world the last of each player, action and actor counts. They go by
/// action, then player, then actor; then creeps move, upkeep goes through all rooms, and creeps that
/// moved onto border tiles cross. A room whose objects and what may be made there come to 2^32, or
/// that has no serials for as many objects more, is refused as one without memory; a room that keeps
/// the rules has at most 7,500 objects.
pub fn tick_plain(alloc: Global, world: &World, intents: &[Intent]) -> Result<World, NoMemory>
    requires tick { world.now.tick < 2 ^ 64 - 1 }
    requires sound { IsSound world.now }
    requires few { length intents.now ≤ 2 ^ 18 }
    requires serials { HaveSerials world.now.rooms }
    ensures ruled { IfOk result (λ next. world_of next ≡ plain_world (world_of world.now) intents.now) }
    ensures sound { IfOk result IsSound }
    ensures forgotten { IfOk result (λ next. AreForgotten next.rooms) }
{
    let roster = Roster::of(alloc, world)?;
    let entries = kept_entries(alloc, world, &roster, intents)?;
    tick_taken(alloc, world.copy(alloc)?, &entries)
}

/// The same as `tick_plain` of a world that is taken: no terrain is copied, and a table once where it has
/// not as much memory as its entries may need, else not at all. `entries` are those that count
/// (`kept_entries`), each with its room.
pub fn tick_taken(alloc: Global, world: World, entries: &[Entry]) -> Result<World, NoMemory>
    requires tick { world.tick < 2 ^ 64 - 1 }
    requires sound { IsSound world }
    requires few { length entries.now ≤ 2 ^ 18 }
    requires serials { HaveSerials world.rooms }
    requires kept { (list : List Intent) × AreKept (world_of world) list entries.now }
    ensures ruled { IfOk result (λ next. (list : List Intent) → AreKept (world_of world) list entries.now
        → world_of next ≡ plain_world (world_of world) list) }
    ensures sound { IfOk result IsSound }
    ensures forgotten { IfOk result (λ next. AreForgotten next.rooms) }
{
    let (mut next, accounts, gains, crossers) = ruled_rooms(alloc, world, entries)?;
    push_raised(alloc, &accounts, &gains, &mut next)?;
    cross(&mut next, &crossers);
    Ok(next)
}

// The world after a tick with these entries, before crossings and without accounts yet, its accounts as they
// were, what their players gained, and the creeps that are to cross.
fn ruled_rooms(
    alloc: Global,
    world: World,
    entries: &[Entry],
) -> Result<(World, Vec<Account>, Vec<u64>, Vec<Crosser>), NoMemory>
    requires tick { world.tick < 2 ^ 64 - 1 }
    requires sound { IsSound world }
    requires few { length entries.now ≤ 2 ^ 18 }
    requires serials { HaveSerials world.rooms }
    requires kept { (list : List Intent) × AreKept (world_of world) list entries.now }
    ensures rooms { IfOk result (λ parts. IsRuledRooms world
        (λ list. AreKept (world_of world) list entries.now) parts.0 parts.3.items) }
    ensures accounts { IfOk result (λ parts. parts.1.items ≡ world.accounts) }
    ensures within { IfOk result (λ parts. length parts.1.items < 2 ^ 32) }
    ensures gains { IfOk result (λ parts. (list : List Intent) → AreKept (world_of world) list entries.now
        → AreGains (gained book (world_of world) list) parts.1.items parts.2.items) }
{
    let tick = world.tick() + 1;
    // The numbers of rooms and of accounts are below 2^32.
    world.stands_in_order();
    let (mut rooms, accounts) = world.into_parts();
    widen_all(alloc, &mut rooms, entries)?;
    let mut gains = vec![in alloc; 0_u64; accounts.len()]?;
    for entry in entries {
        let points = enter(&mut rooms, entry);
        add_gain(&accounts, &mut gains, entry.intent.player, points);
    }
    let mut rooms = tick_all(alloc, rooms, entries)?;
    let crossers = all_crossers(alloc, &mut rooms)?;
    let next = world_of_rooms(alloc, tick, rooms)?;
    Ok((next, accounts, gains, crossers))
}

// The world of these rooms, without accounts yet.
fn world_of_rooms(alloc: Global, tick: u64, rooms: Vec<Room>) -> Result<World, NoMemory>
    requires places { AreInPlace rooms.items }
    requires within { length rooms.items < 2 ^ 32 }
    ensures { IfOk result (λ next. next ≡ record { tick = tick; rooms = rooms.items; accounts = [] }) }
{
    let mut next = World::empty(alloc, tick);
    for room in rooms {
        next.push_room(room.name, room.terrain, room.table)?;
    }
    Ok(next)
}

// The accounts with the points that their players gained.
fn push_raised(
    alloc: Global,
    accounts: &[Account],
    gains: &[u64],
    next: &mut World,
) -> Result<(), NoMemory>
    requires rising { AreRising accounts.now }
    requires within { length accounts.now < 2 ^ 32 }
    requires gains { (gain : ℕ → ℕ) × AreGains gain accounts.now gains.now }
    requires none { next.old.accounts ≡ [] }
    ensures { OnOk result ((gain : ℕ → ℕ) → AreGains gain accounts.now gains.now
        → next.new ≡ record next.old { accounts = map (raised_by gain) accounts.now }) }
{
    for (index, account) in accounts.iter().enumerate() {
        next.push_account(raised(alloc, account, gains[index])?)?;
    }
    Ok(())
}

fn raised(alloc: Global, account: &Account, gain: u64) -> Result<Account, NoMemory>
    ensures { IfOk result (λ next. next ≡ account_raised gain account.now) }
{
    Ok(Account {
        player: account.player,
        limit: account.limit,
        bucket: account.bucket,
        points: raised_points(account, gain),
        memory: Bytes::of(alloc, account.memory.as_slice())?,
    })
}

/// The points of an account with those that its player gained, up to their bound.
pub fn raised_points(account: &Account, gain: u64) -> u64
    ensures { result ≡ points_after account.now gain }
{
    account.points.saturating_add(gain).min(most_points())
}
