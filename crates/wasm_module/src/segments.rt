// The data segments of a module: WebAssembly Core 1.0, chapter 2.5.8.
use wasm_values::{Blob, Entries, Instrs};

/// Bytes that a memory begins with, from an offset on.
#[derive(Drop)]
pub struct Segment {
    pub memory: u32,
    pub offset: Instrs,
    pub bytes: Blob,
}

/// Data segments, in the order of the binary form.
pub type Segments = Entries<Segment>;
