// What a tick's record has to be of the world before it, and the world after it.
#![tactic(auto)]

mod fitting;
mod follow;
mod laws;
mod putting;

pub use fitting::fits;
pub use follow::{advance, after, follows, put, put_taken};
pub use laws::records_keep_rules;
pub use std::alloc::AllocError as NoMemory;
