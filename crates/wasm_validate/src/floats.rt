// Whether a module is without floats.
ghost use Rattle.wasm_values.specs.View.{instr_view, instrs_view};
ghost use Rattle.wasm_module.specs.Sections.{module_view};
ghost use Rattle.wasm_validate.specs.Floats.{HasNoFloat, ImportHasNoFloat, IsInteger};
ghost use Rattle.wasm_validate.specs.Floats.{IsIntegerResult, OpHasNoFloat, OpsHaveNoFloat};
ghost use Rattle.wasm_typing.specs.inner.Stands.{Exactly};

use crate::every::{Rule, all_hold};
use wasm_module::{
    Code, Element, FuncType, GlobalDef, Import, ImportDesc, Instr, Instrs, LocalRun, Module,
    Segment, ValType,
};

fn is_integer(value: ValType) -> bool
    ensures { Exactly (IsInteger value) result }
{
    match value {
        ValType::I32 | ValType::I64 => true,
        ValType::F32 | ValType::F64 => false,
    }
}

fn is_integer_result(kind: Option<ValType>) -> bool
    ensures { Exactly (IsIntegerResult kind) result }
{
    match kind {
        Some(value) => is_integer(value),
        None => true,
    }
}

// In one step an instruction, those inside of blocks counted.
#[cycle(floats)]
fn list_is_plain(instrs: &Instrs) -> bool
    ensures { Exactly (OpsHaveNoFloat (instrs_view instrs.now)) result }
{
    let items = instrs.as_slice();
    let mut at = 0usize;
    while at < items.len() {
        if !is_plain(&items[at]) {
            return false;
        }
        at += 1;
    }
    true
}

#[cycle(floats)]
fn is_plain(instr: &Instr) -> bool
    ensures { Exactly (OpHasNoFloat (instr_view instr.now)) result }
{
    match instr {
        Instr::Block(kind, body) => is_integer_result(*kind) && list_is_plain(body),
        Instr::Loop(kind, body) => is_integer_result(*kind) && list_is_plain(body),
        Instr::If(kind, first, second) => {
            is_integer_result(*kind) && list_is_plain(first) && list_is_plain(second)
        }
        Instr::FloatMemory { .. } => false,
        Instr::FloatConst(_) => false,
        Instr::FloatPlain(_) => false,
        _ => true,
    }
}

struct ValueRule {}

impl Rule for ValueRule {
    type Entry = ValType;

    ghost use Rattle.wasm_validate.specs.Floats.{IsInteger};

    ghost holds = { λ _ value. IsInteger value };

    fn is_held(&self, entry: &ValType) -> bool {
        is_integer(*entry)
    }
}

struct TypeRule {}

impl Rule for TypeRule {
    type Entry = FuncType;

    ghost use Rattle.wasm_validate.specs.Floats.{TypeHasNoFloat};

    ghost holds = { λ _ kind. TypeHasNoFloat kind };

    fn is_held(&self, entry: &FuncType) -> bool {
        all_hold(&ValueRule {}, &entry.params) && is_integer_result(entry.result)
    }
}

struct ImportRule {}

impl Rule for ImportRule {
    type Entry = Import;

    ghost use Rattle.wasm_validate.specs.Floats.{ImportHasNoFloat};

    ghost holds = { λ _ entry. ImportHasNoFloat entry.desc };

    fn is_held(&self, entry: &Import) -> bool {
        match entry.desc {
            ImportDesc::Global(kind) => is_integer(kind.value),
            ImportDesc::Func(_) => true,
            ImportDesc::Table(_) => true,
            ImportDesc::Memory(_) => true,
        }
    }
}

struct GlobalRule {}

impl Rule for GlobalRule {
    type Entry = GlobalDef;

    ghost use Rattle.wasm_module.specs.Entries.{global_view};
    ghost use Rattle.wasm_validate.specs.Floats.{IsInteger, OpsHaveNoFloat};

    ghost holds = { λ _ entry. IsInteger (global_view entry).0.value × OpsHaveNoFloat (global_view entry).1 };

    fn is_held(&self, entry: &GlobalDef) -> bool {
        is_integer(entry.kind.value) && list_is_plain(&entry.init)
    }
}

struct ElementRule {}

impl Rule for ElementRule {
    type Entry = Element;

    ghost use Rattle.wasm_module.specs.Entries.{element_view};
    ghost use Rattle.wasm_validate.specs.Floats.{OpsHaveNoFloat};

    ghost holds = { λ _ entry. OpsHaveNoFloat (element_view entry).1.0 };

    fn is_held(&self, entry: &Element) -> bool {
        list_is_plain(&entry.offset)
    }
}

struct RunRule {}

impl Rule for RunRule {
    type Entry = LocalRun;

    ghost use Rattle.wasm_validate.specs.Floats.{IsInteger};

    ghost holds = { λ _ run. IsInteger run.value };

    fn is_held(&self, entry: &LocalRun) -> bool {
        is_integer(entry.value)
    }
}

struct LocalsRule {}

impl Rule for LocalsRule {
    type Entry = Code;

    ghost use Rattle.std.specs.Prelude.{All};
    ghost use Rattle.wasm_module.specs.Entries.{code_view};
    ghost use Rattle.wasm_validate.specs.Floats.{IsInteger};

    ghost holds = { λ _ entry. All (λ run. IsInteger run.value) (code_view entry).0 };

    fn is_held(&self, entry: &Code) -> bool {
        all_hold(&RunRule {}, &entry.locals)
    }
}

struct BodyRule {}

impl Rule for BodyRule {
    type Entry = Code;

    ghost use Rattle.wasm_module.specs.Entries.{code_view};
    ghost use Rattle.wasm_validate.specs.Floats.{OpsHaveNoFloat};

    ghost holds = { λ _ entry. OpsHaveNoFloat (code_view entry).1 };

    fn is_held(&self, entry: &Code) -> bool {
        list_is_plain(&entry.body)
    }
}

struct SegmentRule {}

impl Rule for SegmentRule {
    type Entry = Segment;

    ghost use Rattle.wasm_module.specs.Entries.{segment_view};
    ghost use Rattle.wasm_validate.specs.Floats.{OpsHaveNoFloat};

    ghost holds = { λ _ entry. OpsHaveNoFloat (segment_view entry).1.0 };

    fn is_held(&self, entry: &Segment) -> bool {
        list_is_plain(&entry.offset)
    }
}

/// Whether no float stands in the module, in one step an entry or instruction.
pub(crate) fn has_no_float(whole: &Module) -> bool
    ensures { Exactly (HasNoFloat (module_view whole.now)) result }
{
    if !all_hold(&TypeRule {}, &whole.types) {
        return false;
    }
    if !all_hold(&ImportRule {}, &whole.imports) {
        return false;
    }
    if !all_hold(&GlobalRule {}, &whole.globals) {
        return false;
    }
    if !all_hold(&ElementRule {}, &whole.elements) {
        return false;
    }
    if !all_hold(&LocalsRule {}, &whole.codes) {
        return false;
    }
    if !all_hold(&BodyRule {}, &whole.codes) {
        return false;
    }
    all_hold(&SegmentRule {}, &whole.segments)
}
