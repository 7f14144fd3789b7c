// What players want of a tick: their intents, the record of one player's, how a run of his module
// ended, and why one is refused.
#![tactic(auto)]

mod entries;
mod intent;
mod laws;
mod player_run;
mod recorded;
mod refusal;

pub use game_tables::{Action, Body, Part};
pub use intent::{Intent, Intents};
pub use laws::one_canonical_list;
pub use object_store::Bytes;
pub use player_run::{PlayerRun, RunOutcome};
pub use recorded::{Recorded, most_entries};
pub use refusal::Refusal;
pub use std::alloc::AllocError as NoMemory;
