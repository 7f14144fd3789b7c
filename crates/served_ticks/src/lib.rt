// Ticks that are served: each takes the uploads that wait in a hub, is recorded, and then told there.
#![tactic(auto)]

mod counts;
mod given;
mod served;
mod summary;
mod ticks;

pub use std::alloc::AllocError as NoMemory;
pub use summary::summary_of;
pub use ticks::{serve_by, serve_ticks};
