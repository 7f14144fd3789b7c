// The imports of a module: WebAssembly Core 1.0, chapter 2.5.11.
use crate::entry_lists::{Entries, Name};
use crate::types::{Bounds, GlobalType};

/// What is imported: a function by its type's index, or the type of a table, a memory or a global.
#[derive(Clone, Copy, Debug, PartialEq, Eq)]
pub enum ImportDesc {
    Func(u32),
    Table(Bounds),
    Memory(Bounds),
    Global(GlobalType),
}

/// An import, named by a module's name and a name in it.
#[derive(Drop)]
pub struct Import {
    pub module: Name,
    pub name: Name,
    pub desc: ImportDesc,
}

/// Imports, in the order of the binary form.
pub type Imports = Entries<Import>;
