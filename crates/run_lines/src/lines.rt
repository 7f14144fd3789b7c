// The lines that a run prints.
ghost use Rattle.std.specs.Prelude.{◌≡◌, ◌<◌, ◌^◌, ◌++◌, length, string_bytes, IfOk, OnOk};
ghost use Rattle.std.specs.List.{flat_map, sum_by};
ghost use Rattle.world_rules.specs.Tick.{intents_of};
ghost use Rattle.run_lines.specs.Lines.{object_count as object_count_of, total_energy as total_energy_of};
ghost use Rattle.run_lines.specs.Lines.{outcome_text as outcome_text_of, tick_line as tick_line_of};
ghost use Rattle.run_lines.specs.Lines.{run_line as run_line_of, start_line as start_line_of};

use intent_book::{PlayerRun, RunOutcome};
use object_store::{Object, Objects, World};
pub use std::alloc::AllocError as NoMemory;
use std::alloc::Global;

/// The line that is printed at the start of a run, with its line feed.
pub fn start_line(alloc: Global, world: &World) -> Result<Vec<u8>, NoMemory>
    ensures { IfOk result (λ line. line.items ≡ start_line_of world.now) }
{
    let tick = world.tick();
    let rooms = world.rooms();
    let objects = object_count(world);
    let players = world.accounts();
    let line = format!(in alloc;
        "start tick {tick} rooms {rooms} objects {objects} players {players}\n"
    )?;
    Ok(line.into_bytes())
}

/// The lines that are printed after those of the uploads of a tick, each with its line feed: one for each
/// run, and one for the world that the tick made.
pub fn later_lines(alloc: Global, runs: &[PlayerRun], after: &World) -> Result<Vec<u8>, NoMemory>
    ensures { IfOk result (λ lines. lines.items
        ≡ flat_map run_line_of runs.now ++ tick_line_of after.now (length (intents_of runs.now))) }
{
    let mut lines = String::new(alloc);
    add_runs(runs, &mut lines)?;
    add_tick(after, intent_count(runs), &mut lines)?;
    Ok(lines.into_bytes())
}

fn add_runs(runs: &[PlayerRun], lines: &mut String) -> Result<(), NoMemory>
    ensures { OnOk result (string_bytes lines.new ≡ string_bytes lines.old ++ flat_map run_line_of runs.now) }
{
    for run in runs {
        add_run(run, lines)?;
    }
    Ok(())
}

fn add_run(run: &PlayerRun, lines: &mut String) -> Result<(), NoMemory>
    ensures { OnOk result (string_bytes lines.new ≡ string_bytes lines.old ++ run_line_of run.now) }
{
    let player = run.player;
    let outcome = outcome_text(run.outcome);
    let used = run.used;
    write!(lines, "player {player} {outcome} {used}\n")
}

#[tactic(auto, unfolding(crate::specs::Lines::outcome_text))]
fn outcome_text(outcome: RunOutcome) -> &'static str
    ensures { result.now ≡ outcome_text_of outcome }
{
    match outcome {
        RunOutcome::Finished => "finished",
        RunOutcome::Trapped(_) => "trapped",
        RunOutcome::Spent => "spent",
    }
}

// The number of intents of all runs.
fn intent_count(runs: &[PlayerRun]) -> u128
    ensures { result ≡ length (intents_of runs.now) }
{
    let mut count: u128 = 0;
    for run in runs {
        count += u128::from(run.intents.len());
    }
    count
}

// Adds the line of a world after a tick, in which so many intents were recorded.
fn add_tick(world: &World, intents: u128, lines: &mut String) -> Result<(), NoMemory>
    ensures { OnOk result (string_bytes lines.new ≡ string_bytes lines.old
        ++ tick_line_of world.now intents) }
{
    let tick = world.tick();
    let objects = object_count(world);
    let energy = total_energy(world);
    write!(
        lines,
        "tick {tick} objects {objects} intents {intents} energy {energy}\n"
    )
}

/// The number of objects of a world.
#[tactic(auto, using(crate::proofs::LinesSums::counts))]
pub fn object_count(world: &World) -> u64
    ensures { result ≡ object_count_of world.now }
{
    let mut count: u64 = 0;
    for room in world.room_list() {
        count += u64::from(room.table.len());
    }
    count
}

/// The energy of all objects of a world, below 2^128.
#[tactic(auto, using(crate::proofs::LinesSums::counts))]
pub fn total_energy(world: &World) -> u128
    ensures { result ≡ total_energy_of world.now }
{
    let mut total: u128 = 0;
    for room in world.room_list() {
        total += room_energy(room.table.objects());
    }
    total
}

// The energy of the objects of one room.
fn room_energy(objects: Objects<'_>) -> u128
    requires { length objects < 2 ^ 32 }
    ensures energy { result ≡ sum_by (λ object. object.energy) objects.entry }
    ensures within { result < 2 ^ 96 }
{
    let mut total: u128 = 0;
    for object in objects {
        total += energy_of(object);
    }
    total
}

// The energy of an object.
fn energy_of(object: &Object) -> u128
    ensures energy { result ≡ object.now.energy }
    ensures within { result < 2 ^ 64 }
{
    u128::from(object.energy)
}
