// A world that is served to its players.
#![tactic(auto)]

mod opening;
mod serve;
mod sessions;

pub use serve::serve_shared;
pub use std::alloc::AllocError as NoMemory;
