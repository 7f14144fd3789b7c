// WebAssembly modules: their sections, the grammar of their binary form, and the reader of it.
#![tactic(auto)]

mod codes;
mod decoding;
mod elements;
mod expressions;
mod forms;
mod globals;
mod held;
mod holders;
mod limits;
mod module;
mod outline;
mod parts;
mod segments;

pub use codes::{Code, Codes, LocalRun, LocalRuns};
pub use decoding::decode;
pub use elements::{Element, Elements};
pub use globals::{GlobalDef, Globals};
pub use module::{DecodeFault, Limit, Module};
pub use segments::{Segment, Segments};
pub use std::alloc::AllocError as NoMemory;
pub use wasm_values::{
    Blob, Bounds, Entries, Export, ExportDesc, Exports, FloatBytes, FuncType, FuncTypes,
    GlobalType, HostSig, Import, ImportDesc, Imports, Indices, Instr, Instrs, MemoryTypes, Name,
    TableTypes, ValType, ValTypes,
};
