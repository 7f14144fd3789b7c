// The exports of a module: WebAssembly Core 1.0, chapter 2.5.10.
use crate::entry_lists::{Entries, Name};

/// What is exported, by its index among those of its kind.
#[derive(Clone, Copy, Debug, PartialEq, Eq)]
pub enum ExportDesc {
    Func(u32),
    Table(u32),
    Memory(u32),
    Global(u32),
}

/// An export under a name.
#[derive(Drop)]
pub struct Export {
    pub name: Name,
    pub desc: ExportDesc,
}

/// Exports, in the order of the binary form.
pub type Exports = Entries<Export>;
