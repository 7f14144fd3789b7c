// One tick of a world with players.
#![tactic(auto)]

mod hosted;
mod judge;
mod modules;
mod restore;
mod runs;

pub use hosted::{Hosted, NoMemory, Ticked};
