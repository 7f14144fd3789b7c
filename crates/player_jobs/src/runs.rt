// Workers who run the players of a world.
ghost use Rattle.std.specs.Prelude.{◌≡◌, ◌<◌, ◌≤◌, IfOk};
ghost use Rattle.player_runs.specs.PlayerRuns.{AreRunsOf, MayBeRun};

use crate::jobs::PlayerJobs;
use claim_board::Board;
use intent_book::PlayerRun;
use object_store::World;
use player_runs::{PlayerModule, RunsPlayers};
use room_workers::{NoMemory, claimed_map_in};
use std::alloc::Global;
use std::thread::Threads;
use world_io::Gate;
use world_roster::Roster;

/// Who runs players as a closure does.
#[derive(Clone, Copy)]
pub struct RunsBy<'a, F> {
    pub runs: &'a F,
}

impl<
    'f,
    F: for<'a> Fn(Global, &World, &Roster, &[PlayerModule<'a>]) -> Result<Vec<PlayerRun>, NoMemory>,
> RunsPlayers for RunsBy<'f, F> {
    ghost use Rattle.std.specs.Prelude.{IfOk};
    ghost use Rattle.player_runs.specs.PlayerRuns.{AreRunsOf, MayBeRun};

    ghost ready = { λ by. (alloc : _) (world : _) (roster : _) (players : _)
        → MayBeRun world.now roster.now players.now
        → F.pre by.runs.now alloc world roster players
        × ((r : _) → F.post by.runs.now alloc world roster players r
        → IfOk r (λ runs. AreRunsOf world.now players.now runs.items)) };

    fn run_players<'a>(
        &self,
        alloc: Global,
        world: &World,
        roster: &Roster,
        players: &[PlayerModule<'a>],
    ) -> Result<Vec<PlayerRun>, NoMemory> {
        (self.runs)(alloc, world, roster, players)
    }
}

/// Runs each of these players with his module on the same world, by so many workers, or one a player where
/// these are fewer, who draw from a board. The run of a player stands at his place.
pub fn runs_by_workers<R: Threads + Sync, G: Gate + Sync>(
    rt: &R,
    alloc: Global,
    world: &World,
    roster: &Roster,
    players: &[PlayerModule],
    gate: &G,
    workers: u32,
) -> Result<Vec<PlayerRun>, NoMemory>
    requires some { (0 < workers) × (workers ≤ 16) }
    requires may { MayBeRun world.now roster.now players.now }
    ensures { IfOk result (λ runs. AreRunsOf world.now players.now runs.items) }
{
    let jobs = PlayerJobs {
        world,
        roster,
        players,
        count: players.len() as u32,
    };
    let (board, seats) = Board::new(alloc, jobs.count, workers.min(jobs.count).max(1))?;
    let (runs, _seat) = claimed_map_in(rt, alloc, &jobs, &board, seats, gate)?;
    Ok(runs)
}
