// All objects of a world by their id, in one list that a tick makes once and lends to whoever asks by an id.
#![tactic(auto)]

mod roster;

pub use roster::Roster;
pub use std::alloc::AllocError as NoMemory;
