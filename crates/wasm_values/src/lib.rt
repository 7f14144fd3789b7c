// The values, types and instructions of WebAssembly modules: their tree, and the readers of their bytes.
#![tactic(auto)]

mod combined;
mod entry_lists;
mod exports;
mod fields;
mod host_sig;
mod imports;
mod instr;
mod leaves;
mod nested;
mod read;
mod skim;
mod types;

pub use combined::{Both, Measured};
pub use entry_lists::{Blob, Entries, Indices, Name};
pub use exports::{Export, ExportDesc, Exports};
pub use fields::{
    blob, bounds, counted, export_desc, global_type, import_desc, mark, name, table_type, val_type,
};
pub use host_sig::HostSig;
pub use imports::{Import, ImportDesc, Imports};
pub use instr::{FloatBytes, Instr, Instrs};
pub use leaves::indices;
pub use nested::inner;
pub use read::{Form, Index, ReadFault, entries};
pub use skim::skim_expression;
pub use std::alloc::AllocError as NoMemory;
pub use types::{
    Bounds, FuncType, FuncTypes, GlobalType, MemoryTypes, TableTypes, ValType, ValTypes,
};
