// How runs end.

/// Why a run was stopped: WebAssembly Core 1.0, chapter 4.4, and the limits of this machine.
#[derive(Clone, Copy, Debug, PartialEq, Eq)]
pub enum Trap {
    /// 1: the instruction `unreachable`.
    Unreachable,
    /// 2: a division or a remainder by 0.
    DivideByZero,
    /// 3: a signed division of the least number by -1.
    Overflow,
    /// 4: a load or a store past the memory's end.
    MemoryBounds,
    /// 5: an indirect call past the table's end.
    TableBounds,
    /// 6: an indirect call of an empty entry.
    EmptyEntry,
    /// 7: an indirect call of a function of another type.
    WrongType,
    /// 8: a call that would make frame 1,001.
    CallDepth,
    /// 9: a push or a call that would take more than 65,536 locals and operands together.
    StackFull,
}

/// How a run ended. `used` is the number of instructions that were executed.
#[derive(Clone, Copy, Debug, PartialEq, Eq)]
pub enum Outcome {
    /// All was run.
    Finished { used: u64 },
    /// The last instruction trapped.
    Trapped { used: u64, trap: Trap },
    /// The fuel is used, and a further instruction was to be executed.
    Spent { used: u64 },
}
