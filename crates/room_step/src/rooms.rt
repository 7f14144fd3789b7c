// The tick of a world, room by room.
ghost use Rattle.std.specs.Prelude.{◌≡◌, ◌<◌, ◌≤◌, ◌-◌, ◌+◌, ◌^◌, ℕ, List, [], map, length, slice_get, Some};
ghost use Rattle.std.specs.Prelude.{IfOk, OnOk};
ghost use Rattle.std.specs.List.Sorted.{IsNonDecreasingBy, IsPermutation};
ghost use Rattle.object_store.specs.Stored.{AreRising};
ghost use Rattle.object_store.specs.declared.world.Room.{Room};
ghost use Rattle.kept_entries.specs.Split.{AreSplit};
ghost use Rattle.world_rules.specs.World.{world_of};
ghost use Rattle.world_rules.specs.Crossings.{crossed};
ghost use Rattle.world_rules.specs.Tick.{book, next_world, intents_of, gained, account_after, run_of};
ghost use Rattle.world_rules.specs.Sound.{IsSound, HaveSerials, serials_bound};
ghost use Rattle.room_rules.specs.Within.{between};
ghost use Rattle.room_commutes.specs.Schedules.{Event, IsFull, after};
ghost use Rattle.exit_crossing.specs.Crossing.{AreForgotten};
ghost use Rattle.ruled_tick.specs.inner.Entered.{AreGains};
ghost use Rattle.ruled_tick.specs.inner.Ticked.{IsRuledRooms};
ghost use Rattle.room_step.specs.Stepping.{KeepsItsRules};
ghost use Rattle.room_step.specs.inner.Rooms.{HasStepped, IsPut};

use crate::NoMemory;
use crate::accounts::push_accounted;
use crate::steppers::{SteppedRoom, StepsRooms};
use exit_crossing::{Crosser, cross};
use intent_book::{Intent, Intents, PlayerRun};
use object_store::{Account, Room, World};
use ruled_tick::add_gain;
use std::alloc::Global;

/// The world after one tick with these runs, in place of the world before, which is taken. Each room is
/// stepped once by itself, in whatever order the stepper takes them (`InTurn`: in rising index), with those
/// of its entries that the runs want, and then all creeps that moved onto border tiles cross, in rising id
/// over the whole world. Each account gets its limit of CPU units
/// into its bucket, up to 10,000, without what its player's run used, the points that its player gained in
/// all rooms, up to 2^53, and the memory text that the run left. A player has one run at most; of two, the
/// first would count for the bucket and the memory text, and what both want would be ruled.
///
/// `lists` has what the runs want, room by room (`all_intents`, `intents_by_room`). A room is copied only
/// where its table has not as much memory as its entries and the steps may need.
pub fn next_world<S: StepsRooms>(
    alloc: Global,
    stepper: &S,
    world: World,
    lists: &[Intents],
    runs: &[PlayerRun],
) -> Result<World, NoMemory>
    requires ready { S.ready stepper.now }
    requires tick { world.tick < 2 ^ 64 - 1 }
    requires sound { IsSound world }
    requires few { length (intents_of runs.now) ≤ 2 ^ 18 }
    requires serials { HaveSerials world.rooms }
    requires rooms { length lists.now ≡ length world.rooms }
    requires split { AreSplit (world_of world) (intents_of runs.now) lists.now }
    ensures next { IfOk result (λ next. world_of next ≡ next_world (world_of world) runs.now) }
    ensures scheduled { IfOk result (λ next. (events : List Event) → IsFull events (length world.rooms)
        → record (world_of next) { accounts = (world_of world).accounts }
        ≡ after book crossed (world_of world) (intents_of runs.now) events) }
    ensures sound { IfOk result IsSound }
    ensures forgotten { IfOk result (λ next. AreForgotten next.rooms) }
    ensures accounts { IfOk result (λ next. next.accounts ≡ map (λ account.
        account_after (gained book (world_of world) (intents_of runs.now) account.player) account
        (run_of account.player runs.now)) world.accounts) }
    ensures rooms { IfOk result (λ next. length next.rooms ≡ length world.rooms) }
{
    let (stepped, accounts) = stepped_rooms(alloc, stepper, world, lists)?;
    let mut next = stepped.world;
    push_accounted(alloc, &accounts, &stepped.gains, runs, &mut next)?;
    cross(&mut next, &stepped.crossers);
    Ok(next)
}

/// What all runs want, in their order.
pub fn all_intents(alloc: Global, runs: &[PlayerRun]) -> Result<Vec<Intent>, NoMemory>
    ensures { IfOk result (λ intents. intents.items ≡ intents_of runs.now) }
{
    let mut intents = Vec::new(alloc);
    for run in runs {
        intents.extend_from_slice(run.intents.as_slice())?;
    }
    Ok(intents)
}

// The rooms that were stepped so far, without accounts yet, who is to cross, and beside each account what its
// player gained.
#[derive(Drop)]
struct Underway {
    world: World,
    crossers: Vec<Crosser>,
    gains: Vec<u64>,
}

// The rooms of a world, each stepped, with the accounts as they were.
fn stepped_rooms<S: StepsRooms>(
    alloc: Global,
    stepper: &S,
    world: World,
    lists: &[Intents],
) -> Result<(Underway, Vec<Account>), NoMemory>
    requires ready { S.ready stepper.now }
    requires tick { world.tick < 2 ^ 64 - 1 }
    requires sound { IsSound world }
    requires serials { HaveSerials world.rooms }
    requires rooms { length lists.now ≡ length world.rooms }
    requires few { (list : List Intent) × (length list ≤ 2 ^ 18) × AreSplit (world_of world) list lists.now }
    ensures rooms { IfOk result (λ parts. (list : List Intent) → AreSplit (world_of world) list lists.now
        → IsRuledRooms world (λ intents. intents ≡ list) parts.0.world parts.0.crossers.items) }
    ensures accounts { IfOk result (λ parts. parts.1.items ≡ world.accounts) }
    ensures within { IfOk result (λ parts. length parts.1.items < 2 ^ 32) }
    ensures gains { IfOk result (λ parts. (list : List Intent) → AreSplit (world_of world) list lists.now
        → AreGains (gained book (world_of world) list) parts.1.items parts.0.gains.items) }
{
    let tick = world.tick() + 1;
    // The numbers of rooms and of accounts are below 2^32.
    world.stands_in_order();
    let (rooms, accounts) = world.into_parts();
    let done = stepper.step_rooms(alloc, rooms, lists)?;
    let mut stepped = Underway {
        world: World::empty(alloc, tick),
        crossers: Vec::new(alloc),
        gains: vec![in alloc; 0_u64; accounts.len()]?,
    };
    for room in done {
        add_step(&accounts, room, &mut stepped)?;
    }
    stepped.crossers.sort_unstable_by_key(|crosser| crosser.id);
    Ok((stepped, accounts))
}

// Adds a stepped room to the others.
fn add_step(accounts: &[Account], room: SteppedRoom, stepped: &mut Underway) -> Result<(), NoMemory>
    requires place { room.done.room.index ≡ length stepped.old.world.rooms }
    requires within { length stepped.old.world.rooms + 1 < 2 ^ 32 }
    requires rising { AreRising accounts.now }
    requires long { length stepped.old.gains.items ≡ length accounts.now }
    ensures { OnOk result (IsPut accounts.now room stepped.old stepped.new) }
{
    let SteppedRoom {
        name,
        terrain,
        done,
    } = room;
    add_gain(accounts, &mut stepped.gains, done.player, done.points);
    stepped
        .crossers
        .extend_from_slice(done.crossers.as_slice())?;
    stepped.world.push_room(name, terrain, done.room)
}
