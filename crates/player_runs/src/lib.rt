// Runs of several players on one world, and who makes them.
#![tactic(auto)]

mod runs;

pub use player_run::NoMemory;
pub use runs::{InTurn, PlayerModule, RunsPlayers};
