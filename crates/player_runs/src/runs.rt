// Who runs the players of a world.
ghost use Rattle.std.specs.Prelude.{IfOk};
ghost use Rattle.player_runs.specs.PlayerRuns.{AreRunsOf, MayBeRun};

use crate::NoMemory;
use intent_book::PlayerRun;
use object_store::World;
use player_run::{Linked, RunRoom, run_player_in};
use std::alloc::Global;
use world_roster::Roster;

/// A player, and the module that he has.
#[derive(Clone, Copy)]
pub struct PlayerModule<'a> {
    pub player: u32,
    pub linked: &'a Linked,
}

/// Who runs players, each with his module and all on the same world, in whatever order.
pub trait RunsPlayers {
    // What the runs ask of what they are made with.
    ghost ready: { Self → Type 0 };

    /// Runs each of these players. The run of a player stands at his place.
    fn run_players<'a>(
        &self,
        alloc: Global,
        world: &World,
        roster: &Roster,
        players: &[PlayerModule<'a>],
    ) -> Result<Vec<PlayerRun>, NoMemory>
        requires ready { ready self.now }
        requires may { MayBeRun world.now roster.now players.now }
        ensures { IfOk result (λ runs. AreRunsOf world.now players.now runs.items) };
}

/// One player after the other, all in one room.
#[derive(Clone, Copy)]
pub struct InTurn;

impl RunsPlayers for InTurn {
    ghost ready = { λ s. Unit {0} };

    fn run_players<'a>(
        &self,
        alloc: Global,
        world: &World,
        roster: &Roster,
        players: &[PlayerModule<'a>],
    ) -> Result<Vec<PlayerRun>, NoMemory> {
        let mut room = RunRoom::new(alloc)?;
        let mut runs = Vec::with_capacity(alloc, players.len())?;
        for one in players {
            let run = run_player_in(alloc, &mut room, one.linked, &*world, &*roster, one.player)?;
            runs.push(run)?;
        }
        Ok(runs)
    }
}
