// The globals of a module: WebAssembly Core 1.0, chapter 2.5.6.
use wasm_values::{Entries, GlobalType, Instrs};

/// A global that the module defines, with the expression of its first value.
#[derive(Drop)]
pub struct GlobalDef {
    pub kind: GlobalType,
    pub init: Instrs,
}

/// Globals, in the order of the binary form.
pub type Globals = Entries<GlobalDef>;
