// Worlds and the records that follow them.
ghost use Rattle.std.specs.Prelude.{◌≡◌, ◌<◌, [], IfOk, OnOk, MatchBool, length};
ghost use Rattle.std.specs.List.{AllByRecursion};
ghost use Rattle.object_store.specs.Stored.{HasAccount};
ghost use Rattle.rule_check.specs.Kept.{KeepsObjectRules};
ghost use Rattle.changed_rules.specs.Census.{ArePlaced, IsCensus};
ghost use Rattle.record_follows.specs.Follows.{Follows, after as world_after};

use crate::NoMemory;
use crate::fitting::fits;
use crate::putting::{put_accounts, put_rooms, take_rooms};
use changed_rules::Census;
use object_store::World;
use rule_check::keeps_object_rules;
use std::alloc::Global;
use tick_journal::{Entries, TickRecord};

/// Whether the record follows the world. It takes the memory of a world more.
pub fn follows(alloc: Global, before: &World, entry: &TickRecord) -> Result<bool, NoMemory>
    ensures { IfOk result (λ yes. MatchBool yes (Follows before.now entry.now)
        (Follows before.now entry.now → ⊥)) }
{
    let mut world = before.copy(alloc)?;
    if !fits(alloc, before, entry)? {
        return Ok(false);
    }
    put(alloc, &mut world, entry)?;
    keeps_object_rules(alloc, &world)
}

/// The world after a record that follows this one.
pub fn after(alloc: Global, before: &World, entry: &TickRecord) -> Result<World, NoMemory>
    requires { Follows before.now entry.now }
    ensures { IfOk result (λ world. world ≡ world_after before.now entry.now) }
{
    let mut world = before.copy(alloc)?;
    put(alloc, &mut world, entry)?;
    Ok(world)
}

/// Leads the world with its census to the one after the record, where the record follows it, and says whether
/// it does. Where it does not, and on want of memory, both may be any.
///
/// It takes time and memory for what is recorded, for the objects of these rooms before and after, and for a
/// list of the rooms; where a record lowers the next serial of a room, for the whole world.
pub fn advance(
    alloc: Global,
    census: &mut Census,
    world: &mut World,
    entry: &TickRecord,
) -> Result<bool, NoMemory>
    requires rules { KeepsObjectRules world.old }
    requires census { IsCensus world.old census.old }
    ensures { IfOk result (λ yes. MatchBool yes
        (Follows world.old entry.now × (world.new ≡ world_after world.old entry.now)
        × IsCensus world.new census.new)
        (Follows world.old entry.now → ⊥)) }
{
    if !fits(alloc, world, entry)? {
        return Ok(false);
    }
    let kept = census.leave(alloc, world, entry.rooms.as_slice())?;
    put(alloc, world, entry)?;
    census.enter(alloc, world, entry.rooms.as_slice(), kept)
}

/// Puts what is recorded in the place of what was there: the world is led to the one after the record. On
/// want of memory it may be any.
///
/// It takes time and memory for what is recorded, and for a list of the rooms.
pub fn put(alloc: Global, world: &mut World, entry: &TickRecord) -> Result<(), NoMemory>
    requires rooms { AllByRecursion (λ table. table.index < length world.old.rooms) entry.now.rooms }
    requires accounts { AllByRecursion (λ account. HasAccount account.player world.old.accounts)
        entry.now.accounts }
    ensures { OnOk result (world.new ≡ world_after world.old entry.now) }
{
    put_rooms(alloc, world, entry.rooms.as_slice())?;
    put_accounts(alloc, world, entry.accounts.as_slice())?;
    world.set_tick(entry.tick);
    Ok(())
}

/// Does so with the tables of the record, which are taken and not copied, and answers the record without
/// them. It takes time for what is recorded, and memory for the accounts. On want of memory the world may be
/// any.
pub fn put_taken(
    alloc: Global,
    world: &mut World,
    entry: TickRecord,
) -> Result<TickRecord, NoMemory>
    requires places { ArePlaced world.old.rooms }
    requires rooms { AllByRecursion (λ table. table.index < length world.old.rooms) entry.rooms }
    requires accounts { AllByRecursion (λ account. HasAccount account.player world.old.accounts)
        entry.accounts }
    ensures put { OnOk result (world.new ≡ world_after world.old entry) }
    ensures rest { IfOk result (λ rest. rest ≡ record entry { rooms = [] }) }
{
    let TickRecord {
        tick,
        uploads,
        runs,
        accounts,
        rooms,
    } = entry;
    take_rooms(world, rooms.into_vec());
    put_accounts(alloc, world, accounts.as_slice())?;
    world.set_tick(tick);
    Ok(TickRecord {
        tick,
        uploads,
        runs,
        accounts,
        rooms: Entries::from_vec(Vec::new(alloc)),
    })
}
