// The records of a journal, ruled again.
#![tactic(auto)]

mod differing;
mod replay;
mod serials;

pub use differing::{byte_at, first_difference};
pub use replay::replay_journal;
pub use serials::exhausted_room;
pub use std::alloc::AllocError as NoMemory;
