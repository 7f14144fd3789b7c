// Runs of ticks, from the bytes of their inputs to the bytes that they write.
#![tactic(auto)]

mod demo;
mod inputs;
mod kept;
mod opening;
mod run;
mod ticks;

pub use demo::run_in_memory;
pub use inputs::load_world;
pub use kept::{Kept, KeptTick};
pub use opening::{Resumed, resume, same_base};
pub use player_run::Refusal;
pub use run::{run_alone, run_by};
pub use run_status::Status;
pub use std::alloc::AllocError as NoMemory;
pub use ticks::record_tick;
