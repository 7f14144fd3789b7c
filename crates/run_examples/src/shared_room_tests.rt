// Players who run one after the other in one room, and those whom workers run.
ghost use Rattle.std.specs.Prelude.{◌≡◌, ◌<◌, ◌≤◌, length, Some, IfOk, IsTrue};
ghost use Rattle.game_tables.specs.Limits.{most_memory, most_rooms};
ghost use Rattle.object_store.specs.declared.account.Account.{Account};
ghost use Rattle.object_store.specs.Stored.{HasAccount, find_account};
ghost use Rattle.world_rules.specs.Sound.{IsSound};
ghost use Rattle.world_rules.specs.World.{world_of};

use crate::worlds::{room, world_in};
use host_calls::Desk;
use intent_book::{Intents, PlayerRun, RunOutcome};
use object_store::{Bytes, World};
use player_jobs::runs_by_workers;
use player_run::{Linked, RunRoom, admit, run_player_among, run_player_in};
use player_runs::PlayerModule;
use std::alloc::{AllocError, Global};
use std::process::Abort;
use std::test::Fail;
use std::thread::Threads;
use visible_view::View;
use wasm_machine::{Instance, Outcome};
use world_io::OpenGate;
use world_roster::Roster;

// Fills its memory with bytes of 255, wants four things of each of 1,024 creeps, makes the whole memory its
// text, and calls itself until it traps, with 61 values in each frame.
// (module
//   (import "screeps" "drop" (func $drop (param i64 i32) (result i32)))
//   (import "screeps" "move" (func $move (param i64 i32) (result i32)))
//   (import "screeps" "ranged_mass_attack" (func $mass (param i64) (result i32)))
//   (import "screeps" "suicide" (func $suicide (param i64) (result i32)))
//   (import "screeps" "memory_write" (func $write (param i32 i32) (result i32)))
//   (memory 1)
//   (func $down (result i64) (local [60 i64])
//     (local.set 59 (i64.const 9)) (i64.add (i64.const 7) (call $down)))
//   (func (export "loop") (local i32 i64)
//     (loop (i64.store (local.get 0) (i64.const -1))
//       (br_if 0 (i32.lt_u (local.tee 0 (i32.add (local.get 0) (i32.const 8))) (i32.const 65536))))
//     (loop (drop (call $drop (local.tee 1 (i64.add (local.get 1) (i64.const 1))) (i32.const 0)))
//       (drop (call $move (local.get 1) (i32.const 3)))
//       (drop (call $mass (local.get 1)))
//       (drop (call $suicide (local.get 1)))
//       (br_if 0 (i64.lt_u (local.get 1) (i64.const 1024))))
//     (drop (call $write (i32.const 0) (i32.const 65536)))
//     (drop (call $down))))
const MANY: &[u8] =
    b"\0asm\x01\0\0\0\x01\x19\x05`\0\0`\x02~\x7f\x01\x7f`\x01~\x01\x7f`\x02\x7f\x7f\x01\x7f`\0\x01~\x02e\x05\x07screeps\x04drop\0\x01\x07screeps\x04move\0\x01\x07screeps\x12ranged_mass_attack\0\x02\x07screeps\x07suicide\0\x02\x07screeps\x0cmemory_write\0\x03\x03\x03\x02\x04\0\x05\x03\x01\0\x01\x07\x08\x01\x04loop\0\x06\x0ab\x02\x0d\x01<~B\x09!;B\x07\x10\x05|\x0bR\x02\x01\x7f\x01~\x03@ \0B\x7f7\x03\0 \0A\x08j\x22\0A\x80\x80\x04I\x0d\0\x0b\x03@ \x01B\x01|\x22\x01A\0\x10\0\x1a \x01A\x03\x10\x01\x1a \x01\x10\x02\x1a \x01\x10\x03\x1a \x01B\x80\x08T\x0d\0\x0bA\0A\x80\x80\x04\x10\x04\x1a\x10\x05\x1a\x0b";

// Hands 5 from one creep to another, reads its text behind a byte for the text's length, and makes these and
// what stands behind them its text, 12 bytes.
// (module
//   (import "screeps" "transfer" (func $transfer (param i64 i64 i32) (result i32)))
//   (import "screeps" "memory_length" (func $length (result i32)))
//   (import "screeps" "memory_read" (func $read (param i32) (result i32)))
//   (import "screeps" "memory_write" (func $write (param i32 i32) (result i32)))
//   (memory 1)
//   (func (export "loop") (local i32)
//     (drop (call $transfer (i64.const 2001) (i64.const 2002) (i32.const 5)))
//     (drop (call $read (i32.add (local.get 0) (i32.const 16))))
//     (i32.store8 (i32.const 15) (call $length))
//     (drop (call $write (i32.const 15) (i32.const 12)))))
const FEW: &[u8] =
    b"\0asm\x01\0\0\0\x01\x1a\x05`\0\0`\x03~~\x7f\x01\x7f`\0\x01\x7f`\x01\x7f\x01\x7f`\x02\x7f\x7f\x01\x7f\x02Y\x04\x07screeps\x08transfer\0\x01\x07screeps\x0dmemory_length\0\x02\x07screeps\x0bmemory_read\0\x03\x07screeps\x0cmemory_write\0\x04\x03\x02\x01\0\x05\x03\x01\0\x01\x07\x08\x01\x04loop\0\x04\x0a'\x01%\x01\x01\x7fB\xd1\x0fB\xd2\x0fA\x05\x10\0\x1a \0A\x10j\x10\x02\x1aA\x0f\x10\x01:\0\0A\x0fA\x0c\x10\x03\x1a\x0b";

// Where a creep stands.
fn stand(alloc: Global, id: u32, x: u32, y: u32) -> Result<String, AllocError> {
    format!(in alloc; "\"id\":{id},\"kind\":\"creep\",\"x\":{x},\"y\":{y}")
}

// A creep with what it needs to move, to carry and to attack.
fn creep(alloc: Global, stand: &str, owner: u32, energy: u32) -> Result<String, AllocError> {
    format!(in alloc;
        "{{{stand},\"owner\":{owner},\"body\":[\"move\",\"carry\",\"ranged_attack\"],\"energy\":{energy},\"timer\":9}}"
    )
}

// The creeps 1 to 1,024 of player 1.
fn many_creeps(alloc: Global) -> Result<String, AllocError> {
    let mut creeps = String::new(alloc);
    for at in 0..1_024_u32 {
        let stand = stand(alloc, at + 1, 1 + at % 48, 1 + at / 48)?;
        creeps.push_str(creep(alloc, stand.as_str(), 1, 10)?.as_str())?;
        creeps.push(',')?;
    }
    Ok(creeps)
}

// Two neighbours of player 2.
fn two_creeps(alloc: Global) -> Result<String, AllocError> {
    let one = creep(alloc, stand(alloc, 2_001, 10, 30)?.as_str(), 2, 40)?;
    let other = creep(alloc, stand(alloc, 2_002, 11, 30)?.as_str(), 2, 0)?;
    format!(in alloc; "{one},{other}")
}

// The text of the world of both players.
fn two_players(alloc: Global) -> Result<String, AllocError> {
    let mut objects = many_creeps(alloc)?;
    objects.push_str(two_creeps(alloc)?.as_str())?;
    let only = room(alloc, "E0S0", 3_000, objects.as_str())?;
    let players =
        "{\"player\":1,\"limit\":20,\"bucket\":0,\"memory\":\"6f6e65\"},{\"player\":2,\"limit\":1,\"bucket\":0,\"memory\":\"74776f\"}";
    format!(in alloc; "{{\"version\":1,\"tick\":6,\"rooms\":[{only}],\"players\":[{players}]}}")
}

fn linked(alloc: Global, bytes: &[u8]) -> Result<Linked, Fail> {
    match admit(alloc, bytes) {
        Ok(found) => Ok(found),
        Err(_) => Err("no module".into()),
    }
}

// What a run leaves in room that was taken for it alone.
#[derive(Drop)]
struct Alone {
    outcome: Outcome,
    intents: Intents,
    memory: Bytes,
}

// How a module ends at a desk, in an instance of its own.
fn outcome_of(
    alloc: Global,
    linked: &Linked,
    desk: &mut Desk,
    fuel: u64,
) -> Result<Outcome, AllocError> {
    let mut instance = Instance::new(alloc, linked)?;
    Ok(instance.run(desk, fuel))
}

// Runs a module on what a player sees, at a desk and in an instance of its own.
fn run_by_itself(alloc: Global, linked: &Linked, view: &View, fuel: u64) -> Result<Alone, Fail> {
    let account = view.account();
    let text = account.memory.as_slice();
    if text.len() > 65_536 {
        return Err("too long a text".into());
    }
    let mut desk = Desk::new(alloc, view, account.player, text)?;
    let outcome = outcome_of(alloc, linked, &mut desk, fuel)?;
    let (book, memory) = desk.finish();
    Ok(Alone {
        outcome,
        intents: book.into_canonical(),
        memory,
    })
}

// Whether a player of the world can be run.
fn can_run(world: &World, player: u32) -> bool
    ensures account { IsTrue result → HasAccount player world.now.accounts }
    ensures memory { IsTrue result → (account : Account)
        → find_account player world.now.accounts ≡ Some account → length account.memory ≤ most_memory }
    ensures rooms { IsTrue result → length world.now.rooms ≤ most_rooms }
{
    match world.account(player) {
        Some(account) => world.rooms() <= 400 && account.memory.len() <= 65_536,
        None => false,
    }
}

// The same on what a player of the world sees.
fn run_in_world(
    alloc: Global,
    linked: &Linked,
    world: &World,
    player: u32,
    fuel: u64,
) -> Result<Alone, Fail>
    requires { IsSound world.now }
{
    if !can_run(world, player) {
        return Err("not the world of the file".into());
    }
    let view = View::of(alloc, world, player)?;
    run_by_itself(alloc, linked, &view, fuel)
}

fn assert_alike(rt: &impl Abort, run: &PlayerRun, alone: &Alone) {
    let (outcome, used) = match alone.outcome {
        Outcome::Finished { used } => (RunOutcome::Finished, used),
        Outcome::Trapped { used, .. } => (RunOutcome::Trapped(8), used),
        Outcome::Spent { used } => (RunOutcome::Spent, used),
    };
    assert!(rt; (run.outcome, run.used) == (outcome, used));
    assert!(rt; run.memory.as_slice() == alone.memory.as_slice());
    assert!(rt; run.intents.len() == alone.intents.len());
    for (entry, same) in run
        .intents
        .as_slice()
        .iter()
        .zip(alone.intents.as_slice().iter())
    {
        assert!(rt;
            (entry.player, entry.action.number(), entry.actor)
                == (same.player, same.action.number(), same.actor)
        );
        assert!(rt; (entry.target, entry.amount) == (same.target, same.amount));
    }
}

// The run of the first player fills whatever a run can fill.
fn assert_fills(rt: &impl Abort, run: &PlayerRun, alone: &Alone) {
    assert!(rt; (run.player, run.outcome) == (1, RunOutcome::Trapped(8)));
    assert!(rt; (run.intents.len(), run.memory.len()) == (4_096, 65_536));
    assert_alike(rt, run, alone);
}

// The run of the second player meets nothing of another's.
fn assert_clean(rt: &impl Abort, run: &PlayerRun, alone: &Alone) {
    assert!(rt;
        (run.player, run.outcome, run.used, run.intents.len()) == (2, RunOutcome::Finished, 17, 1)
    );
    assert!(rt; run.memory.as_slice() == b"\x03two\0\0\0\0\0\0\0\0".as_slice());
    assert_alike(rt, run, alone);
}

// The run of a player among the players of the world.
fn run_among(
    alloc: Global,
    linked: &Linked,
    world: &World,
    roster: &Roster,
    player: u32,
) -> Result<PlayerRun, Fail>
    requires sound { IsSound world.now }
    requires roster { roster.now ≡ (world_of world.now).objects }
{
    if !can_run(world, player) {
        return Err("not the world of the file".into());
    }
    Ok(run_player_among(alloc, linked, world, roster, player)?)
}

// The same in room that was taken for many.
fn run_in<'a>(
    alloc: Global,
    shared: &mut RunRoom<'a>,
    linked: &'a Linked,
    world: &World,
    roster: &Roster,
    player: u32,
) -> Result<PlayerRun, Fail>
    requires sound { IsSound world.now }
    requires roster { roster.now ≡ (world_of world.now).objects }
{
    if !can_run(world, player) {
        return Err("not the world of the file".into());
    }
    Ok(run_player_in(alloc, shared, linked, world, roster, player)?)
}

// The modules of both players, with what their runs by themselves leave.
#[derive(Clone, Copy)]
struct Modules<'a> {
    many: &'a Linked,
    few: &'a Linked,
    first: &'a Alone,
    second: &'a Alone,
}

// Runs the first module among the players, and then both, one behind the other, in one room, twice.
fn assert_room_is_shared(
    rt: &impl Abort,
    alloc: Global,
    world: &World,
    modules: Modules,
) -> Result<(), Fail>
    requires { IsSound world.now }
{
    let roster = Roster::of(alloc, world)?;
    assert_fills(
        rt,
        &run_among(alloc, modules.many, world, &roster, 1)?,
        modules.first,
    );
    let mut shared = RunRoom::new(alloc)?;
    for _again in 0..2 {
        assert_fills(
            rt,
            &run_in(alloc, &mut shared, modules.many, world, &roster, 1)?,
            modules.first,
        );
        assert_clean(
            rt,
            &run_in(alloc, &mut shared, modules.few, world, &roster, 2)?,
            modules.second,
        );
    }
    Ok(())
}

// Runs the modules by themselves, and then so.
fn assert_runs_are_alike(
    rt: &impl Abort,
    alloc: Global,
    world: &World,
    many: &Linked,
    few: &Linked,
) -> Result<(), Fail>
    requires { IsSound world.now }
{
    let first = run_in_world(alloc, many, world, 1, 200_000)?;
    let second = run_in_world(alloc, few, world, 2, 10_000)?;
    let modules = Modules {
        many,
        few,
        first: &first,
        second: &second,
    };
    assert_room_is_shared(rt, alloc, world, modules)
}

// Links the modules, and does so with them.
fn assert_modules_are_alike(rt: &impl Abort, alloc: Global, world: &World) -> Result<(), Fail>
    requires { IsSound world.now }
{
    let many = linked(alloc, MANY)?;
    let few = linked(alloc, FEW)?;
    assert_runs_are_alike(rt, alloc, world, &many, &few)
}

// The world of both players.
fn two_player_world(alloc: Global) -> Result<World, Fail>
    ensures { IfOk result (λ world. IsSound world) }
{
    world_in(alloc, two_players(alloc)?.as_str())
}

#[test]
fn a_run_is_the_same_in_the_room_of_another(rt: HostRuntime) -> Result<(), Fail> {
    let world = two_player_world(rt.alloc())?;
    assert_modules_are_alike(&rt, rt.alloc(), &world)
}

// The runs of both players among the players, by so many workers.
fn runs_by<R: Threads + Sync>(
    rt: &R,
    alloc: Global,
    world: &World,
    many: &Linked,
    few: &Linked,
    workers: u32,
) -> Result<Vec<PlayerRun>, Fail>
    requires sound { IsSound world.now }
    requires some { (0 < workers) × (workers ≤ 16) }
{
    if !can_run(world, 1) || !can_run(world, 2) {
        return Err("not the world of the file".into());
    }
    let roster = Roster::of(alloc, world)?;
    let players = [
        PlayerModule {
            player: 1,
            linked: many,
        },
        PlayerModule {
            player: 2,
            linked: few,
        },
    ];
    Ok(runs_by_workers(rt, alloc, world, &roster, &players, &OpenGate, workers)?)
}

// Links the modules, and runs them by one worker, by two, and by more than there are players.
fn assert_workers_run<R: Abort + Threads + Sync>(
    rt: &R,
    alloc: Global,
    world: &World,
) -> Result<(), Fail>
    requires { IsSound world.now }
{
    let many = linked(alloc, MANY)?;
    let few = linked(alloc, FEW)?;
    let first = run_in_world(alloc, &many, world, 1, 200_000)?;
    let second = run_in_world(alloc, &few, world, 2, 10_000)?;
    for workers in [1, 2, 16] {
        let runs = runs_by(rt, alloc, world, &many, &few, workers)?;
        assert!(rt; runs.len() == 2);
        let (Some(one), Some(other)) = (runs.get(0), runs.get(1)) else {
            return Err("no run".into());
        };
        assert_fills(rt, one, &first);
        assert_clean(rt, other, &second);
    }
    Ok(())
}

#[test]
fn a_run_is_the_same_by_workers(rt: HostRuntime) -> Result<(), Fail> {
    let world = two_player_world(rt.alloc())?;
    assert_workers_run(&rt, rt.alloc(), &world)
}
