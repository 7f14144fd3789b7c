// The codes of a module's functions: WebAssembly Core 1.0, chapter 5.5.13.
use wasm_values::{Entries, Instrs, ValType};

/// So many locals of one type.
#[derive(Clone, Copy, Debug, PartialEq, Eq)]
pub struct LocalRun {
    pub count: u32,
    pub value: ValType,
}

/// The locals of a function behind its parameters, in runs of one type.
pub type LocalRuns = Entries<LocalRun>;

/// The locals and the body of a function.
#[derive(Drop)]
pub struct Code {
    pub locals: LocalRuns,
    pub body: Instrs,
}

/// Codes of functions, in the order of the binary form.
pub type Codes = Entries<Code>;
