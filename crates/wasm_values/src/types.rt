// The types of a module: WebAssembly Core 1.0, chapter 2.3.
use crate::entry_lists::Entries;

/// A value type. Floats can be spelled, and are refused by the validation.
#[derive(Clone, Copy, Debug, PartialEq, Eq)]
pub enum ValType {
    I32,
    I64,
    F32,
    F64,
}

/// Value types, in the order of the binary form.
pub type ValTypes = Entries<ValType>;

/// A function's type, with at most one result.
#[derive(Drop)]
pub struct FuncType {
    pub params: ValTypes,
    pub result: Option<ValType>,
}

/// Types of functions, in the order of the binary form.
pub type FuncTypes = Entries<FuncType>;

/// The limits of a table, in entries, or of a memory, in pages of 64 KiB.
#[derive(Clone, Copy, Debug, PartialEq, Eq)]
pub struct Bounds {
    pub min: u32,
    pub max: Option<u32>,
}

/// The limits of tables, in the order of the binary form. The entries of a table are functions.
pub type TableTypes = Entries<Bounds>;

/// The limits of memories, in the order of the binary form.
pub type MemoryTypes = Entries<Bounds>;

/// The type of a global.
#[derive(Clone, Copy, Debug, PartialEq, Eq)]
pub struct GlobalType {
    pub value: ValType,
    pub mutable: bool,
}
