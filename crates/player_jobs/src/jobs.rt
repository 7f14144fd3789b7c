// The runs of players as a row of jobs.
ghost use Rattle.std.specs.Prelude.{◌≡◌, ◌<◌, ◌≤◌, ◌^◌, length, slice_get, Some, IfOk};
ghost use Rattle.player_runs.specs.PlayerRuns.{MayBeRun};
ghost use Rattle.player_jobs.specs.PlayerJobs.{IsRunDone};

use intent_book::PlayerRun;
use object_store::World;
use player_run::{RunRoom, run_player_in};
use player_runs::PlayerModule;
use room_workers::{NoMemory, RoomedJob};
use std::alloc::Global;
use world_roster::Roster;

/// The runs of these players, each with his module, on the same world. A worker's room is that of its runs.
#[derive(Clone, Copy)]
pub(crate) struct PlayerJobs<'a> {
    pub world: &'a World,
    pub roster: &'a Roster<'a>,
    pub players: &'a [PlayerModule<'a>],
    pub count: u32,
}

impl<'a> RoomedJob for PlayerJobs<'a> {
    ghost use Rattle.std.specs.Prelude.{◌≡◌, length};
    ghost use Rattle.player_runs.specs.PlayerRuns.{MayBeRun};
    ghost use Rattle.player_jobs.specs.PlayerJobs.{IsRunDone};

    type Room = RunRoom<'a>;

    type Done = PlayerRun;

    ghost ready = { λ jobs. MayBeRun jobs.world.now jobs.roster.now jobs.players.now
        × (jobs.count ≡ length jobs.players.now) };

    ghost size = { λ jobs. jobs.count };

    ghost gives = { λ jobs k run. IsRunDone jobs.world.now jobs.players.now k run };

    fn count(&self) -> u32 {
        self.count
    }

    fn room(&self, alloc: Global) -> Result<RunRoom<'a>, NoMemory> {
        RunRoom::new(alloc)
    }

    fn run(&self, alloc: Global, room: &mut RunRoom<'a>, k: u32) -> Result<PlayerRun, NoMemory> {
        let one = self.players[k as usize];
        run_player_in(alloc, room, one.linked, self.world, self.roster, one.player)
    }
}
