// A run by workers.
ghost use Rattle.std.specs.Prelude.{◌≡◌, ◌<◌, ◌≤◌, map, string_bytes, IfOk};
ghost use Rattle.player_runs.specs.PlayerRuns.{AreRunsOf, MayBeRun};
ghost use Rattle.room_step.specs.Steps.{AreStepped, MayBeStepped};
ghost use Rattle.world_journal.specs.Journals.{IsQuiet};
ghost use Rattle.world_run.specs.Ends.{Runs};

use command_words::{Command, read_words};
use intent_book::{Intents, PlayerRun};
use object_store::{Room, World};
use player_jobs::{RunsBy, runs_by_workers};
use player_runs::PlayerModule;
use room_jobs::{StepsBy, stepped_by_workers};
use room_step::SteppedRoom;
use room_workers::NoMemory;
use run_status::Status;
use std::alloc::Global;
use std::thread::Threads;
use world_io::{Disk, Gate, Sink, Source};
use world_roster::Roster;
use world_run::run_by;

/// The most workers of a run.
const MOST_WORKERS: u32 = 16;

/// Runs N ticks on the world of a file, as `run_alone` does, for the words
/// `run WORLD UPLOADS JOURNAL --ticks N --workers K` by K workers. In each tick they draw the players with a
/// module, each of whom one of them runs on the world as it is; and then the rooms, each of which one of them
/// steps. They pass the gate before each player and each room. Where no thread can be made the caller does
/// all himself.
///
/// It waits for its own workers, and for nobody else.
pub fn run_shared<R: Threads + Sync, W: Source, U: Source, O: Sink, D: Disk, G: Gate + Sync>(
    rt: &R,
    alloc: Global,
    words: &[String],
    world: &mut W,
    uploads: &mut U,
    out: &mut O,
    disk: &mut D,
    gate: &G,
) -> Status
    requires { IsQuiet (D.seen disk.old) (D.moments disk.old) }
    ensures { Runs 16 (map string_bytes words.now)
        (record {
          world = W.left world.old;
          uploads = U.left uploads.old;
          written = O.written out.old;
          disk = D.seen disk.old;
          moments = D.moments disk.old;
          world_faults = W.faults world.old;
          uploads_faults = U.faults uploads.old;
          sink_faults = O.faults out.old;
          disk_faults = D.faults disk.old;
        })
        (record {
          world = W.left world.new;
          uploads = U.left uploads.new;
          written = O.written out.new;
          disk = D.seen disk.new;
          moments = D.moments disk.new;
          world_faults = W.faults world.new;
          uploads_faults = U.faults uploads.new;
          sink_faults = O.faults out.new;
          disk_faults = D.faults disk.new;
        }) result }
{
    let workers = asked_workers(alloc, words);
    let runs = |alloc: Global, world: &World, roster: &Roster, players: &[PlayerModule]| -> Result<
        Vec<PlayerRun>,
        NoMemory,
    >
        requires { (0 < workers) × (workers ≤ 16) × MayBeRun world.now roster.now players.now }
        ensures { IfOk result (λ runs. AreRunsOf world.entry.now players.entry.now runs.items) }
    { runs_by_workers(rt, alloc, world, roster, players, gate, workers) };
    let steps = |alloc: Global, rooms: Vec<Room>, lists: &[Intents]| -> Result<
        Vec<SteppedRoom>,
        NoMemory,
    >
        requires { (0 < workers) × (workers ≤ 16) × MayBeStepped rooms.items lists.now }
        ensures { IfOk result (λ stepped. AreStepped lists.entry.now rooms.items stepped.items) }
    { stepped_by_workers(rt, alloc, rooms, lists, gate, workers) };
    run_by(
        alloc,
        &RunsBy { runs: &runs },
        &StepsBy { steps: &steps },
        MOST_WORKERS,
        words,
        world,
        uploads,
        out,
        disk,
    )
}

// The number of workers that words ask for. Of words that are not those of a run, which no worker will do,
// it is one; `run_by` says what is wrong with them.
fn asked_workers(alloc: Global, words: &[String]) -> u32
    ensures { (0 < result) × (result ≤ 16) }
{
    match read_words(alloc, words) {
        Ok(Command::Run { workers, .. }) => workers,
        _ => 1,
    }
}
