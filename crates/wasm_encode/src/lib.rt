// The binary form of WebAssembly modules, written as short as it can be.
#![tactic(auto)]

mod encodable;
mod entries;
mod instrs;
mod sections;
mod values;
mod written;

pub use encodable::encodable_modules_are_spelled;
pub use sections::encode;
pub use wasm_module::NoMemory;
