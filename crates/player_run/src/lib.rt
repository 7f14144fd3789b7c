// Which modules a player may have, and what one emits in a tick.
#![tactic(auto)]

mod admission;
mod laws;
mod outcome;
mod run;

pub use admission::{Refusal, admit};
pub use laws::{emitted_in_own_name, emitted_once, judged_once};
pub use run::{NoMemory, RunRoom, run_player, run_player_among, run_player_in};
pub use wasm_link::Linked;
