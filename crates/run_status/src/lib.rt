// How a call of the program ends: its exit status, and the line of its fault.
#![tactic(auto)]

mod status;
mod unread;

pub use status::Status;
pub use std::alloc::AllocError as NoMemory;
