// The typing of instructions: WebAssembly Core 1.0, chapters 3.1 to 3.3.
#![tactic(auto)]

mod body;
mod branches;
mod calls;
mod check;
mod context;
mod labels;
mod laws;
mod locals;
mod memories;
mod numbers;
mod operands;
mod scope;
mod variables;
mod workspace;

pub use body::is_function;
pub use calls::type_of;
pub use context::Context;
pub use laws::typing_laws;
pub use std::alloc::AllocError as NoMemory;
pub use workspace::Workspace;
