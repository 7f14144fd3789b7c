// Single ticks of worlds that were read from files.
ghost use Rattle.std.specs.Prelude.{◌<◌, ◌≤◌, ◌^◌, All, IfOk, IsTrue, length};
ghost use Rattle.world_rules.specs.Sound.{HaveSerials, IsSound};

use crate::worlds::{room, world_in};
use exit_crossing::Crosser;
use game_tables::{Action, Body};
use intent_book::{Intent, Intents};
use object_store::World;
use room_jobs::steps_by_workers;
use room_step::{Crossers, StepDone, step_room};
use ruled_tick::tick_plain;
use std::alloc::{AllocError, Global};
use std::test::Fail;
use std::thread::Threads;
use world_io::OpenGate;

// Creeps 3 and 4 of players 2 and 1 stand in the first room, and one of player 1 on a pile; in the second one
// of each
// player, of which the second carries nothing, and a source that is renewed at once.
fn two_rooms(alloc: Global) -> Result<String, AllocError> {
    let first = room(
        alloc,
        "E0S0",
        7,
        "{\"id\":3,\"kind\":\"creep\",\"x\":31,\"y\":30,\"owner\":2,\"body\":[\"carry\",\"move\"],\"energy\":30,\"timer\":1500},{\"id\":4,\"kind\":\"creep\",\"x\":30,\"y\":30,\"owner\":1,\"body\":[\"carry\",\"move\"],\"energy\":20,\"timer\":1500},{\"id\":5,\"kind\":\"creep\",\"x\":20,\"y\":20,\"owner\":1,\"body\":[\"carry\",\"move\"],\"energy\":10,\"timer\":1500},{\"id\":6,\"kind\":\"pile\",\"x\":20,\"y\":20,\"energy\":1001}",
    )?;
    let second = room(
        alloc,
        "E1S0",
        4,
        "{\"id\":4294967297,\"kind\":\"creep\",\"x\":10,\"y\":10,\"owner\":1,\"body\":[\"carry\",\"move\"],\"energy\":50,\"timer\":1500},{\"id\":4294967298,\"kind\":\"creep\",\"x\":11,\"y\":11,\"owner\":2,\"body\":[\"carry\",\"move\"],\"timer\":1500},{\"id\":4294967299,\"kind\":\"source\",\"x\":5,\"y\":5,\"timer\":1}",
    )?;
    format!(in alloc;
        "{{\"version\":1,\"tick\":41,\"rooms\":[{first},{second}],\"players\":[{{\"player\":1,\"limit\":20,\"bucket\":30,\"points\":7,\"memory\":\"6f6e65\"}},{{\"player\":2,\"limit\":500,\"bucket\":9000,\"memory\":\"74776f\"}}]}}"
    )
}

// The entry of this player, action, actor and amount.
fn entry(player: u32, action: Action, actor: u64, amount: u64) -> Intent {
    Intent {
        player,
        action,
        actor,
        target: 0,
        amount,
        body: Body::new(),
    }
}

// Whether no room has used up its serials.
fn have_serials(world: &World) -> bool
    ensures { IsTrue result → HaveSerials world.now.rooms }
{
    world
        .room_list()
        .iter()
        .all(|room| room.table.next() <= 4_293_918_720)
}

// The world of a text, whose rooms have serials left.
fn world_of(alloc: Global, text: &str) -> Result<World, Fail>
    ensures sound { IfOk result (λ world. IsSound world) }
    ensures serials { IfOk result (λ world. HaveSerials world.rooms) }
{
    let world = world_in(alloc, text)?;
    if !have_serials(&world) {
        return Err("used up".into());
    }
    Ok(world)
}

// The tick of a world by these entries.
fn ticked(alloc: Global, world: &World, intents: &[Intent]) -> Result<World, Fail>
    requires sound { IsSound world.now }
    requires serials { HaveSerials world.now.rooms }
    requires few { length intents.now ≤ 2 ^ 18 }
{
    if world.tick() > 99 {
        return Err("another world".into());
    }
    Ok(tick_plain(alloc, world, intents)?)
}

// The energy of an object of a room.
fn energy_of(world: &World, index: usize, id: u64) -> Option<u64> {
    let room = world.room_list().get(index)?;
    let object = room.table.get(id)?;
    Some(object.energy)
}

// How many objects a room has, and the serial of its next.
fn room_of(world: &World, index: usize) -> Option<(u32, u32)> {
    let room = world.room_list().get(index)?;
    Some((room.table.len(), room.table.next()))
}

// The bucket and the points of a player.
fn saved_of(world: &World, player: u32) -> Option<(u32, u64)> {
    let account = world.account(player)?;
    Some((account.bucket, account.points))
}

// The memory text of a player.
fn memory_of(world: &World, player: u32) -> &[u8] {
    match world.account(player) {
        Some(account) => account.memory.as_slice(),
        None => b"nobody's",
    }
}

// The world of two rooms.
fn two_room_world(alloc: Global) -> Result<World, Fail>
    ensures sound { IfOk result (λ world. IsSound world) }
    ensures serials { IfOk result (λ world. HaveSerials world.rooms) }
{
    world_of(alloc, two_rooms(alloc)?.as_str())
}

// The tick of that world by entries of creeps of both rooms.
fn ruled(alloc: Global) -> Result<World, Fail> {
    let intents = [
        entry(2, Action::DropLoad, 3, 10),
        // (another player's creep, and nobody's entry)
        entry(2, Action::DropLoad, 4, 1),
        entry(0, Action::DropLoad, 6, 1),
        // (a harvest of nothing, by a creep without a part to work with)
        entry(2, Action::Harvest, 4_294_967_298, 0),
        // (no load)
        entry(2, Action::DropLoad, 4_294_967_298, 5),
        entry(1, Action::DropLoad, 4_294_967_297, 7),
        // (a pile, and nothing)
        entry(1, Action::DropLoad, 6, 1),
        entry(1, Action::DropLoad, 9, 1),
        entry(1, Action::DropLoad, 5, 60),
        entry(1, Action::DropLoad, 4, 5),
        // (the last of two entries of one creep)
        entry(2, Action::DropLoad, 3, 0),
    ];
    let world = two_room_world(alloc)?;
    ticked(alloc, &world, &intents)
}

#[test]
fn entries_of_two_rooms_are_ruled(rt: HostRuntime) -> Result<(), Fail> {
    let next = ruled(rt.alloc())?;
    assert!(rt; (next.tick(), next.rooms(), next.accounts()) == (42, 2, 2));
    assert!(rt; room_of(&next, 0) == Some((6, 9)));
    assert!(rt; room_of(&next, 1) == Some((4, 5)));
    for (index, id, energy) in [
        (0, 3, 0),
        (0, 4, 15),
        (0, 5, 0),
        // (1,001 and 10, of which 2 decay)
        (0, 6, 1_009),
        // (the creep of player 1 drops before that of player 2; each pile loses 1)
        (0, 7, 4),
        (0, 8, 29),
        (1, 4_294_967_297, 43),
        (1, 4_294_967_298, 0),
        (1, 4_294_967_299, 1_500),
        (1, 4_294_967_300, 6),
    ] {
        assert!(rt; energy_of(&next, index, id) == Some(energy), "of {id}");
    }
    assert!(rt; (saved_of(&next, 1), saved_of(&next, 2)) == (Some((30, 7)), Some((9_000, 0))));
    assert!(rt; memory_of(&next, 1) == b"one".as_slice());
    assert!(rt; memory_of(&next, 2) == b"two".as_slice());
    Ok(())
}

// The step of a room of a world by itself.
fn step_at(
    alloc: Global,
    world: &World,
    index: u32,
    intents: &[Intent],
) -> Result<StepDone, AllocError>
    requires sound { IsSound world.now }
    requires serials { HaveSerials world.now.rooms }
    requires index { index < length world.now.rooms }
    requires few { length intents.now ≤ 2 ^ 18 }
{
    step_room(
        alloc,
        index,
        world.terrain(index),
        world.room(index),
        intents,
    )
}

// The step of a room of the world of a text.
fn step_in(alloc: Global, text: &str, index: u32, intents: &[Intent]) -> Result<StepDone, Fail>
    requires { length intents.now ≤ 2 ^ 18 }
{
    let world = world_of(alloc, text)?;
    if index >= world.rooms() {
        return Err("another world".into());
    }
    Ok(step_at(alloc, &world, index, intents)?)
}

// Entries of creeps of both rooms.
fn drops() -> [Intent; 3] {
    [
        entry(1, Action::DropLoad, 4_294_967_297, 7),
        entry(1, Action::DropLoad, 4, 5),
        entry(2, Action::DropLoad, 3, 0),
    ]
}

// The step of one of two rooms by these.
fn dropped(alloc: Global, index: u32) -> Result<StepDone, Fail> {
    step_in(alloc, two_rooms(alloc)?.as_str(), index, &drops())
}

// (what another room's creep wants does nothing here)
#[test]
fn the_first_room_steps_by_itself(rt: HostRuntime) -> Result<(), Fail> {
    let done = dropped(rt.alloc(), 0)?;
    assert!(rt; (done.room.len(), done.room.next()) == (6, 9));
    assert!(rt; done.room.get(4).map(|creep| creep.energy) == Some(15));
    assert!(rt; (done.player, done.points, done.crossers.len()) == (0, 0, 0));
    assert!(rt; done.room.spare() >= 196);
    Ok(())
}

#[test]
fn the_second_room_steps_by_itself(rt: HostRuntime) -> Result<(), Fail> {
    let done = dropped(rt.alloc(), 1)?;
    assert!(rt; (done.room.len(), done.room.next()) == (4, 5));
    assert!(rt; done.room.get(4_294_967_297).map(|creep| creep.energy) == Some(43));
    assert!(rt; done.room.get(4_294_967_299).map(|source| source.energy) == Some(1_500));
    Ok(())
}

// Whether no list has more entries than a tick may have.
fn are_few(lists: &[Intents]) -> bool
    ensures { IsTrue result → All (λ list. length list ≤ 2 ^ 18) lists.now }
{
    lists.iter().all(|list| list.len() <= 262_144)
}

// The steps of all rooms of a world, each by its list of entries, by so many workers.
fn stepped_by<R: Threads + Sync>(
    rt: &R,
    alloc: Global,
    world: &World,
    lists: &[Intents],
    workers: u32,
) -> Result<Vec<StepDone>, Fail>
    requires sound { IsSound world.now }
    requires serials { HaveSerials world.now.rooms }
    requires some { (0 < workers) × (workers ≤ 16) }
{
    let rooms = world.room_list();
    if lists.len() != rooms.len() || !are_few(lists) {
        return Err("other lists".into());
    }
    Ok(steps_by_workers(rt, alloc, rooms, lists, &OpenGate, workers)?)
}

// A list of this entry alone.
fn only(alloc: Global, intent: Intent) -> Result<Intents, AllocError> {
    let mut list = Intents::new(alloc);
    list.push(intent)?;
    Ok(list)
}

// (the entry of the second list stands for a creep of the second room)
#[test]
fn workers_step_each_room_by_its_list(rt: HostRuntime) -> Result<(), Fail> {
    let alloc = rt.alloc();
    let world = two_room_world(alloc)?;
    let lists = vec![in alloc;
        only(alloc, entry(1, Action::DropLoad, 4, 5))?,
        only(alloc, entry(1, Action::DropLoad, 4_294_967_297, 7))?,
    ]?;
    for workers in [1, 2, 16] {
        let done = stepped_by(&rt, alloc, &world, &lists, workers)?;
        assert!(rt; done.len() == 2);
        let (Some(first), Some(second)) = (done.get(0), done.get(1)) else {
            return Err("no room".into());
        };
        assert!(rt; (first.room.index(), first.room.len(), first.room.next()) == (0, 5, 8));
        assert!(rt; first.room.get(4).map(|creep| creep.energy) == Some(15));
        assert!(rt; (second.room.index(), second.room.len(), second.room.next()) == (1, 4, 5));
        assert!(rt; second.room.get(4_294_967_297).map(|creep| creep.energy) == Some(43));
        assert!(rt; second.room.get(4_294_967_299).map(|source| source.energy) == Some(1_500));
    }
    Ok(())
}

// A room without objects, and one of player 2, whose creep upgrades, with two creeps of player 1.
fn colony(alloc: Global) -> Result<String, AllocError> {
    let empty = room(alloc, "E0S0", 1, "")?;
    let colony = room(
        alloc,
        "E1S0",
        5,
        "{\"id\":4294967297,\"kind\":\"controller\",\"x\":10,\"y\":10,\"owner\":2,\"extra\":1,\"timer\":9},{\"id\":4294967298,\"kind\":\"creep\",\"x\":11,\"y\":10,\"owner\":2,\"body\":[\"work\",\"work\",\"carry\",\"move\"],\"energy\":5,\"timer\":1500},{\"id\":4294967299,\"kind\":\"creep\",\"x\":1,\"y\":25,\"owner\":1,\"body\":[\"move\"],\"timer\":1500},{\"id\":4294967300,\"kind\":\"creep\",\"x\":25,\"y\":1,\"owner\":1,\"body\":[\"move\"],\"timer\":1500}",
    )?;
    format!(in alloc;
        "{{\"version\":1,\"tick\":0,\"rooms\":[{empty},{colony}],\"players\":[{{\"player\":1,\"limit\":20}},{{\"player\":2,\"limit\":20}}]}}"
    )
}

// The step of one of its rooms, by a creep that upgrades and two that leave.
fn left(alloc: Global, index: u32) -> Result<StepDone, Fail> {
    let upgrade = Intent {
        target: 4_294_967_297,
        ..entry(2, Action::Upgrade, 4_294_967_298, 0)
    };
    // (to the left and to the top)
    let intents = [
        entry(1, Action::Move, 4_294_967_300, 1),
        upgrade,
        entry(1, Action::Move, 4_294_967_299, 7),
    ];
    step_in(alloc, colony(alloc)?.as_str(), index, &intents)
}

// The id and the room of a creep that leaves.
fn leaving(done: &StepDone, place: u64) -> Option<(u64, u32)> {
    let crosser = done.crossers.nth(place)?;
    Some((crosser.id, crosser.room))
}

// The column of the creep at the left, and whether it moved.
fn left_creep(done: &StepDone) -> Option<(u8, u32)> {
    let creep = done.room.get(4_294_967_299)?;
    Some((creep.x, creep.other_ticks))
}

// How many objects a room has, and who gains how many points.
fn gained(alloc: Global, index: u32) -> Result<(u32, u32, u32), Fail> {
    let done = left(alloc, index)?;
    Ok((done.room.len(), done.player, done.points))
}

#[test]
fn a_room_tells_who_leaves_and_who_gains(rt: HostRuntime) -> Result<(), Fail> {
    assert!(rt; gained(rt.alloc(), 0)? == (0, 0, 0));
    let done = left(rt.alloc(), 1)?;
    assert!(rt; (done.player, done.points) == (2, 2));
    assert!(rt; leaving(&done, 0) == Some((4_294_967_299, 1)));
    assert!(rt; leaving(&done, 1) == Some((4_294_967_300, 1)));
    assert!(rt; leaving(&done, 2) == None);
    assert!(rt; left_creep(&done) == Some((0, 0)));
    Ok(())
}

// Two creeps that cross.
fn two_crossers(alloc: Global) -> Result<Crossers, AllocError> {
    let mut list = Crossers::new(alloc);
    list.push(Crosser { id: 7, room: 3 })?;
    list.push(Crosser { id: 8, room: 2 })?;
    Ok(list)
}

#[test]
fn crossers_are_a_list(rt: HostRuntime) -> Result<(), Fail> {
    assert!(rt; Crossers::new(rt.alloc()).is_empty());
    let list = two_crossers(rt.alloc())?;
    assert!(rt; (list.len(), list.is_empty()) == (2, false));
    assert!(rt; list.nth(1).map(|crosser| (crosser.id, crosser.room)) == Some((8, 2)));
    assert!(rt; list.as_slice().len() == 2);
    Ok(())
}
