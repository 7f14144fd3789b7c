// What a typed module keeps as it runs.
ghost use Rattle.wasm_soundness.specs.Laws.{InvokedFunctionsAreTyped, LeavingKeepsTypes, FramesEndInResults};
ghost use Rattle.wasm_soundness.specs.Laws.{LevelsAreFew, BranchingKeepsTypes, ConditionsKeepTypes};
ghost use Rattle.wasm_soundness.specs.Laws.{TablesKeepTypes, ReturningKeepsTypes, BlocksKeepTypes};
ghost use Rattle.wasm_soundness.specs.Laws.{LoopsKeepTypes, ChoicesKeepTypes, CallsKeepTypes};
ghost use Rattle.wasm_soundness.specs.Laws.{IndirectCallsKeepTypes, EntriesAreFunctions, ConstantsAreOffered};
ghost use Rattle.wasm_soundness.specs.Laws.{NumbersAreOffered, OperandsAreOffered, LocalsKeepTypes};
ghost use Rattle.wasm_soundness.specs.Laws.{GlobalsKeepTypes, AddressesAreOffered, GrowthsAreOffered};
ghost use Rattle.wasm_soundness.specs.Laws.{FloatsAreNotRun};

/// Says what holds of a typed run, instruction by instruction: each instruction finds its operands on top of
/// the stack,
/// and its label, its local, its global or its function, and what it leads to is typed again. Behind an
/// instruction
/// that gives a value the run is typed where that number is a value of its type. It does nothing when it
/// runs: its
/// contract is what the check has proved.
///
/// The clauses speak of a thread, which is what one run of a module has left to do, in the context of the
/// module:
/// - `invoked`, `leaving`, `frames` and `levels`: where a thread begins, and where blocks and frames end;
/// - `branching`, `conditions`, `tables` and `returning`: `br`, `br_if`, `br_table` and `return`;
/// - `blocks`, `loops` and `choices`: `block`, `loop` and `if`;
/// - `calls`, `indirect` and `entries`: `call` and `call_indirect`. Where the host answers a call, its answer
/// has to be
///   a value of the call's result;
/// - `constants` and those behind it: the instructions that neither branch nor call. With any values of the
/// right types
///   in the place of their operands, for which there is room, the thread is typed.
pub fn typing_is_kept()
    ensures invoked { InvokedFunctionsAreTyped }
    ensures leaving { LeavingKeepsTypes }
    ensures frames { FramesEndInResults }
    ensures levels { LevelsAreFew }
    ensures branching { BranchingKeepsTypes }
    ensures conditions { ConditionsKeepTypes }
    ensures tables { TablesKeepTypes }
    ensures returning { ReturningKeepsTypes }
    ensures blocks { BlocksKeepTypes }
    ensures loops { LoopsKeepTypes }
    ensures choices { ChoicesKeepTypes }
    ensures calls { CallsKeepTypes }
    ensures indirect { IndirectCallsKeepTypes }
    ensures entries { EntriesAreFunctions }
    ensures constants { ConstantsAreOffered }
    ensures numbers { NumbersAreOffered }
    ensures operands { OperandsAreOffered }
    ensures locals { LocalsKeepTypes }
    ensures globals { GlobalsKeepTypes }
    ensures addresses { AddressesAreOffered }
    ensures growths { GrowthsAreOffered }
    ensures floats { FloatsAreNotRun }
{}
