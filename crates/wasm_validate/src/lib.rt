// The validation of WebAssembly modules: whether a module has a typing, WebAssembly Core 1.0, chapter 3.
#![tactic(auto)]

mod codes;
mod constants;
mod every;
mod floats;
mod names;
mod rules;
mod valid;

pub use std::alloc::AllocError as NoMemory;
pub use valid::{Valid, ValidFault, validate};
pub use wasm_typing::typing_laws;
