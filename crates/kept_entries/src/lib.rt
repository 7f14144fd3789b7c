// Which entries of a tick count, in the order in which they are ruled, and entries room by room.
#![tactic(auto)]

mod entries;
mod rooms;

pub use entries::{Entry, kept_entries};
pub use rooms::{intents_by_room, kept_in_room, no_intents_by_room};
pub use std::alloc::AllocError as NoMemory;
