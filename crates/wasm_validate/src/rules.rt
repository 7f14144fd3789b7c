// The rules of what a module declares, begins with and exports: WebAssembly Core 1.0, chapters 3.2 and 3.4.
ghost use Rattle.std.specs.Prelude.{All};
ghost use Rattle.wasm_module.specs.Sections.{module_view};
ghost use Rattle.wasm_validate.specs.inner.Groups.{AreDeclared, AreMade};
ghost use Rattle.wasm_validate.specs.Modules.{AreOrdered, IsMemoryType, IsStart, Exists};
ghost use Rattle.wasm_typing.specs.Views.{context_view};
ghost use Rattle.wasm_typing.specs.inner.Stands.{Exactly};

use crate::constants::is_constant;
use crate::every::{Rule, all_hold, each_holds};
use wasm_module::{
    Bounds, Element, Export, ExportDesc, GlobalDef, GlobalType, Module, Segment, ValType,
};
use wasm_typing::{Context, type_of};

// The most pages of a memory.
const MOST_PAGES: u32 = 65_536;

fn are_ordered(bounds: Bounds) -> bool
    ensures { Exactly (AreOrdered bounds) result }
{
    match bounds.max {
        Some(most) => bounds.min <= most,
        None => true,
    }
}

fn is_memory_type(bounds: Bounds) -> bool
    ensures { Exactly (IsMemoryType bounds) result }
{
    match bounds.max {
        Some(most) => bounds.min <= most && most <= MOST_PAGES,
        None => bounds.min <= MOST_PAGES,
    }
}

fn is_start(context: &Context, start: Option<u32>) -> bool
    ensures { Exactly (IsStart (context_view context.now) start) result }
{
    let Some(func) = start else {
        return true;
    };
    let Some(kind) = type_of(context, func) else {
        return false;
    };
    if !kind.params.as_slice().is_empty() {
        return false;
    }
    match kind.result {
        Some(_) => false,
        None => true,
    }
}

fn exists(context: &Context, desc: ExportDesc) -> bool
    ensures { Exactly (Exists (context_view context.now) desc) result }
{
    match desc {
        ExportDesc::Func(index) => (index as usize) < context.funcs.len(),
        ExportDesc::Table(index) => (index as usize) < context.tables.len(),
        ExportDesc::Memory(index) => (index as usize) < context.memories.len(),
        ExportDesc::Global(index) => (index as usize) < context.globals.len(),
    }
}

/// An index is below a count.
#[derive(Drop)]
struct IndexRule {
    count: usize,
}

impl Rule for IndexRule {
    type Entry = u32;

    ghost use Rattle.std.specs.Prelude.{◌<◌};

    ghost holds = { λ rule index. index < rule.count };

    fn is_held(&self, entry: &u32) -> bool {
        (*entry as usize) < self.count
    }
}

struct TableRule {}

impl Rule for TableRule {
    type Entry = Bounds;

    ghost use Rattle.wasm_validate.specs.Modules.{AreOrdered};

    ghost holds = { λ _ bounds. AreOrdered bounds };

    fn is_held(&self, entry: &Bounds) -> bool {
        are_ordered(*entry)
    }
}

struct MemoryRule {}

impl Rule for MemoryRule {
    type Entry = Bounds;

    ghost use Rattle.wasm_validate.specs.Modules.{IsMemoryType};

    ghost holds = { λ _ bounds. IsMemoryType bounds };

    fn is_held(&self, entry: &Bounds) -> bool {
        is_memory_type(*entry)
    }
}

#[derive(Drop)]
struct GlobalRule<'a> {
    imported: &'a [GlobalType],
}

impl<'a> Rule for GlobalRule<'a> {
    type Entry = GlobalDef;

    ghost use Rattle.wasm_module.specs.Entries.{global_view};
    ghost use Rattle.wasm_validate.specs.Modules.{IsGlobal};

    ghost holds = { λ rule entry. IsGlobal rule.imported.now (global_view entry) };

    fn is_held(&self, entry: &GlobalDef) -> bool {
        is_constant(self.imported, &entry.init, entry.kind.value)
    }
}

#[derive(Drop)]
struct ElementRule<'a> {
    context: &'a Context<'a>,
    imported: &'a [GlobalType],
}

impl<'a> Rule for ElementRule<'a> {
    type Entry = Element;

    ghost use Rattle.wasm_module.specs.Entries.{element_view};
    ghost use Rattle.wasm_validate.specs.Modules.{IsElements};
    ghost use Rattle.wasm_typing.specs.Views.{context_view};

    ghost holds = { λ rule entry. IsElements (context_view rule.context.now) rule.imported.now
        (element_view entry) };

    fn is_held(&self, entry: &Element) -> bool {
        if entry.table as usize >= self.context.tables.len() {
            return false;
        }
        if !is_constant(self.imported, &entry.offset, ValType::I32) {
            return false;
        }
        all_hold(
            &IndexRule {
                count: self.context.funcs(),
            },
            &entry.funcs,
        )
    }
}

#[derive(Drop)]
struct DataRule<'a> {
    context: &'a Context<'a>,
    imported: &'a [GlobalType],
}

impl<'a> Rule for DataRule<'a> {
    type Entry = Segment;

    ghost use Rattle.wasm_module.specs.Entries.{segment_view};
    ghost use Rattle.wasm_validate.specs.Modules.{IsData};
    ghost use Rattle.wasm_typing.specs.Views.{context_view};

    ghost holds = { λ rule entry. IsData (context_view rule.context.now) rule.imported.now
        (segment_view entry) };

    fn is_held(&self, entry: &Segment) -> bool {
        if entry.memory as usize >= self.context.memories.len() {
            return false;
        }
        is_constant(self.imported, &entry.offset, ValType::I32)
    }
}

#[derive(Drop)]
struct ExportRule<'a> {
    context: &'a Context<'a>,
}

impl<'a> Rule for ExportRule<'a> {
    type Entry = Export;

    ghost use Rattle.wasm_validate.specs.Modules.{Exists};
    ghost use Rattle.wasm_typing.specs.Views.{context_view};

    ghost holds = { λ rule entry. Exists (context_view rule.context.now) entry.desc };

    fn is_held(&self, entry: &Export) -> bool {
        exists(self.context, entry.desc)
    }
}

/// Whether what the module declares and imports is as it has to be.
pub(crate) fn are_declared(context: &Context, whole: &Module) -> bool
    ensures { Exactly (AreDeclared (context_view context.now) (module_view whole.now)) result }
{
    let types = IndexRule {
        count: whole.types.as_slice().len(),
    };
    if !each_holds(&types, context.funcs.as_slice()) {
        return false;
    }
    if whole.funcs.len() != whole.codes.len() {
        return false;
    }
    if !each_holds(&TableRule {}, context.tables.as_slice()) {
        return false;
    }
    if !each_holds(&MemoryRule {}, context.memories.as_slice()) {
        return false;
    }
    context.tables.len() <= 1 && context.memories.len() <= 1
}

/// Whether what the module begins with and exports is as it has to be.
pub(crate) fn are_made(context: &Context, imported: &[GlobalType], whole: &Module) -> bool
    ensures { Exactly (AreMade (context_view context.now) imported.now (module_view whole.now)) result }
{
    if !all_hold(&GlobalRule { imported }, &whole.globals) {
        return false;
    }
    if !all_hold(&ElementRule { context, imported }, &whole.elements) {
        return false;
    }
    if !all_hold(&DataRule { context, imported }, &whole.segments) {
        return false;
    }
    if !is_start(context, whole.start) {
        return false;
    }
    all_hold(&ExportRule { context }, &whole.exports)
}
