// The store of WebAssembly Core 1.0, chapter 4.2: a memory, global variables and a table of functions.
#![tactic(auto)]

mod memory;
mod table;
mod variables;

pub use memory::Pages;
pub use std::alloc::AllocError as NoMemory;
pub use table::FuncTable;
pub use variables::GlobalValues;
