// Runs of a player's module on a world that was read from a file.
ghost use Rattle.std.specs.Prelude.{IfOk};
ghost use Rattle.world_rules.specs.Sound.{IsSound};

use crate::worlds::{room, world_in};
use game_tables::Action;
use intent_book::{PlayerRun, RunOutcome};
use object_store::World;
use player_run::{Linked, admit, run_player};
use std::alloc::{AllocError, Global};
use std::test::Fail;

// (module
//   (type (func)) (type (func (param i64 i32) (result i32)))
//   (import "screeps" "drop" (func (type 1)))
//   (func (export "loop") (drop (call 0 (i64.const 3) (i32.const 5)))))
const DROPS: &[u8] =
    b"\0asm\x01\0\0\0\x01\x0a\x02\x60\0\0\x60\x02\x7e\x7f\x01\x7f\x02\x10\x01\x07screeps\x04drop\0\x01\x03\x02\x01\0\x07\x08\x01\x04loop\0\x01\x0a\x0b\x01\x09\0\x42\x03\x41\x05\x10\0\x1a\x0b";

// (module (func (export "loop") (loop (br 0))))
const NEVER_ENDS: &[u8] =
    b"\0asm\x01\0\0\0\x01\x04\x01\x60\0\0\x03\x02\x01\0\x07\x08\x01\x04loop\0\0\x0a\x09\x01\x07\0\x03\x40\x0c\0\x0b\x0b";

// A creep of player 1, who may use 2 CPU units a tick and has saved 1.
fn one_creep(alloc: Global) -> Result<String, AllocError> {
    let only = room(
        alloc,
        "E0S0",
        9,
        "{\"id\":3,\"kind\":\"creep\",\"x\":6,\"y\":8,\"owner\":1,\"body\":[\"move\",\"carry\"],\"energy\":40,\"timer\":9}",
    )?;
    format!(in alloc;
        "{{\"version\":1,\"tick\":6,\"rooms\":[{only}],\"players\":[{{\"player\":1,\"limit\":2,\"bucket\":1,\"memory\":\"6f6e65\"}}]}}"
    )
}

// The world of that creep.
fn creep_world(alloc: Global) -> Result<World, Fail>
    ensures { IfOk result (λ world. IsSound world) }
{
    world_in(alloc, one_creep(alloc)?.as_str())
}

// The run of a module on a world.
fn run_on_world(alloc: Global, world: &World, linked: &Linked) -> Result<PlayerRun, Fail>
    requires { IsSound world.now }
{
    let Some(account) = world.account(1) else {
        return Err("no account".into());
    };
    if world.rooms() > 400 || account.memory.len() > 65_536 {
        return Err("not the world of the file".into());
    }
    Ok(run_player(alloc, linked, world, 1)?)
}

// The run of the module of these bytes.
fn run_of(alloc: Global, bytes: &[u8]) -> Result<PlayerRun, Fail> {
    let Ok(linked) = admit(alloc, bytes) else {
        return Err("no module".into());
    };
    let world = creep_world(alloc)?;
    run_on_world(alloc, &world, &linked)
}

// The player, the actor and the amount of the only entry, where it drops energy.
fn only_drop(run: &PlayerRun) -> Option<(u32, u64, u64)> {
    let entry = run.intents.nth(0)?;
    let is_drop = run.intents.len() == 1 && entry.action == Action::DropLoad;
    is_drop.then_some((entry.player, entry.actor, entry.amount))
}

#[test]
fn a_creep_drops_what_its_module_says(rt: HostRuntime) -> Result<(), Fail> {
    let run = run_of(rt.alloc(), DROPS)?;
    assert!(rt; (run.player, run.outcome, run.used) == (1, RunOutcome::Finished, 4));
    assert!(rt; run.memory.as_slice() == b"one".as_slice());
    assert!(rt; only_drop(&run) == Some((1, 3, 5)));
    Ok(())
}

#[test]
fn a_loop_spends_what_the_account_allows(rt: HostRuntime) -> Result<(), Fail> {
    let run = run_of(rt.alloc(), NEVER_ENDS)?;
    assert!(rt; (run.player, run.outcome, run.used) == (1, RunOutcome::Spent, 30_000));
    assert!(rt; (run.intents.len(), run.memory.len()) == (0, 3));
    Ok(())
}
