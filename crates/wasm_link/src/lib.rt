// The linking of modules: WebAssembly Core 1.0, chapter 4.5.4.
#![tactic(auto)]

mod beginning;
mod classes;
mod constants;
mod entries;
mod exports;
mod fault;
mod functions;
mod image;
mod imports;
mod linked;
mod segments;
mod stored;
mod stretches;
mod values;

pub use fault::LinkFault;
pub use linked::{Callee, Linked, link};
pub use std::alloc::AllocError as NoMemory;
pub use stored::Stored;
