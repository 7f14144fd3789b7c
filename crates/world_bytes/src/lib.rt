// The byte forms of rooms, accounts and intents, both ways.
#![tactic(auto)]

mod fault;
mod laws;
mod object;
mod read;
mod write;

pub use fault::BytesFault;
pub use laws::forms_are_one;
pub use read::{read_account, read_intent, read_room};
pub use std::alloc::AllocError as NoMemory;
pub use write::{put_length, write_account, write_intent, write_room};
