// The uploads of a tick with their results, and the frame of a tick that holds them.
#![tactic(auto)]

mod judged;
mod piece;

pub use judged::{JudgedEntries, JudgedEntry, JudgedUploads};
pub use piece::tick_piece;
pub use std::alloc::AllocError as NoMemory;
