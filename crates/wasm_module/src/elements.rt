// The element segments of a module: WebAssembly Core 1.0, chapter 2.5.7.
use wasm_values::{Entries, Indices, Instrs};

/// Functions that a table begins with, from an offset on.
#[derive(Drop)]
pub struct Element {
    pub table: u32,
    pub offset: Instrs,
    pub funcs: Indices,
}

/// Element segments, in the order of the binary form.
pub type Elements = Entries<Element>;
