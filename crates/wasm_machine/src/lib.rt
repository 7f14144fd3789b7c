// The machine that runs WebAssembly modules for a budget of instructions.
#![tactic(auto)]

mod calls;
mod control;
mod execute;
mod host_calls;
mod instance;
mod machine;
mod outcomes;
mod run;

pub use instance::Instance;
pub use machine::Machine;
pub use std::alloc::AllocError as NoMemory;
pub use wasm_link::{LinkFault, Linked, link};
pub use wasm_steps::{Host, Outcome, Trap};
