// A module, and why bytes are refused as one.
use crate::codes::Codes;
use crate::elements::Elements;
use crate::globals::Globals;
use crate::segments::Segments;
use wasm_values::{Exports, FuncTypes, Imports, Indices, MemoryTypes, TableTypes};

/// A module: WebAssembly Core 1.0, chapter 2.5. Custom sections are not kept.
pub struct Module {
    pub types: FuncTypes,
    pub imports: Imports,
    /// The index of its type for each function that the module defines.
    pub funcs: Indices,
    pub tables: TableTypes,
    pub memories: MemoryTypes,
    pub globals: Globals,
    pub exports: Exports,
    /// The index of the function that runs before all others.
    pub start: Option<u32>,
    pub elements: Elements,
    /// One for each entry of `funcs`, where the module was decoded.
    pub codes: Codes,
    pub segments: Segments,
}

impl Drop for Module {
    fn drop(self) {
        let Module {
            types: _,
            imports: _,
            funcs: _,
            tables: _,
            memories: _,
            globals: _,
            exports: _,
            start: _,
            elements: _,
            codes: _,
            segments: _,
        } = self;
    }
}

/// A limit of what is taken as a module.
#[derive(Clone, Copy, Debug, PartialEq, Eq)]
pub enum Limit {
    /// 1 MiB.
    Bytes,
    /// 10,000 functions.
    Functions,
    /// Blocks within one another, 200.
    Nesting,
    /// 65,536 locals of a function, its parameters counted.
    Locals,
    /// A memory's least size, 256 pages.
    Pages,
    /// A table's least size, 65,536 entries.
    TableEntries,
}

/// Why bytes are not taken as a module.
#[derive(Clone, Copy, Debug, PartialEq, Eq)]
pub enum DecodeFault {
    /// They spell no module.
    Malformed,
    /// They pass this limit, and none before it in the list.
    TooLarge(Limit),
    Memory,
}
