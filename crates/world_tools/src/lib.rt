// The commands of the program that keep nothing.
#![tactic(auto)]

mod made;
mod shown;
mod tool;

pub use player_run::Refusal;
pub use run_status::Status;
pub use std::alloc::AllocError as NoMemory;
pub use tool::tool_main;
