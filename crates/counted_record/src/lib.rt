// A record of intents that knows how many claims and sites are in it.
#![tactic(auto)]

mod counted;

pub use counted::{CountedRecord, Elsewhere};
pub use std::alloc::AllocError as NoMemory;
