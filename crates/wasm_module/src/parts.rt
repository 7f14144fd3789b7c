// What the sections of a module hold, for any form of expressions.
ghost use Rattle.std.specs.Prelude.{◌≡◌, List, ℕ, [], length, map, IfOk, IfErr};
ghost use Rattle.wasm_values.specs.Spelling.{SpellsList, SpellsU32};
ghost use Rattle.wasm_module.specs.Sections.{AreOf, Holds, Syntax, content_of};
ghost use Rattle.wasm_module.specs.inner.Parts.{AreDeclared, AreDefined, parts_view, section_view};
ghost use Rattle.wasm_module.specs.declared.parts.Declared.{Declared as DeclaredView};

use crate::expressions::Expression;
use crate::forms::{ExportEntry, FunctionType, ImportEntry, MemoryType, TableType};
use crate::held::{held, start_of};
use crate::holders::{CodeEntry, ElementEntry, GlobalEntry, SegmentEntry};
use crate::outline::Section;
use std::alloc::Global;
use wasm_values::{
    Entries, Exports, FuncTypes, Imports, Index, Indices, MemoryTypes, ReadFault, TableTypes,
};

/// What the sections before that of the globals hold.
#[derive(Drop)]
pub(crate) struct Declared {
    pub types: FuncTypes,
    pub imports: Imports,
    pub funcs: Indices,
    pub tables: TableTypes,
    pub memories: MemoryTypes,
}

/// What the sections from that of the globals on hold, as it is kept.
#[derive(Drop)]
pub(crate) struct Defined<G, E, C, S> {
    pub globals: Entries<G>,
    pub exports: Exports,
    pub start: Option<u32>,
    pub elements: Entries<E>,
    pub codes: Entries<C>,
    pub segments: Entries<S>,
}

/// What the sections from that of the globals on hold, with expressions of a form.
pub(crate) type DefinedOf<X> = Defined<
    <X as Expression>::Global,
    <X as Expression>::Element,
    <X as Expression>::Code,
    <X as Expression>::Segment,
>;

/// The parts of a module, with its globals, elements, codes and segments as they are kept.
#[derive(Drop)]
pub(crate) struct Parts<G, E, C, S> {
    pub declared: Declared,
    pub defined: Defined<G, E, C, S>,
}

/// The parts of a module with expressions of a form.
pub(crate) type PartsOf<X> = Parts<
    <X as Expression>::Global,
    <X as Expression>::Element,
    <X as Expression>::Code,
    <X as Expression>::Segment,
>;

// Reads what the sections before that of the globals hold.
fn declared_in(alloc: Global, sections: &[Section]) -> Result<Declared, ReadFault>
    ensures found { IfOk result (λ found. AreDeclared (map section_view sections.now) found) }
    ensures only { IfOk result (λ found. (other : List ℕ)
        → Holds (SpellsList SpellsU32) [] (content_of 3 (map section_view sections.now)) other
        → other ≡ found.funcs) }
    ensures malformed { IfErr result (λ e. e ≡ ReadFault.Malformed → (other : DeclaredView)
        → AreDeclared (map section_view sections.now) other → ⊥) }
{
    let types = held::<FunctionType>(alloc, sections, 1)?;
    let imports = held::<ImportEntry>(alloc, sections, 2)?;
    let funcs = held::<Index>(alloc, sections, 3)?;
    let tables = held::<TableType>(alloc, sections, 4)?;
    let memories = held::<MemoryType>(alloc, sections, 5)?;
    Ok(Declared {
        types,
        imports,
        funcs,
        tables,
        memories,
    })
}

// Reads what the sections from that of the globals on hold, with so many codes.
fn defined_in<X: Expression>(
    alloc: Global,
    sections: &[Section],
    count: u64,
) -> Result<DefinedOf<X>, ReadFault>
    ensures found { IfOk result (λ found. AreDefined X.spells (map section_view sections.now)
        (map X.global_seen found.globals) found.exports found.start (map X.element_seen found.elements)
        (map X.code_seen found.codes) (map X.segment_seen found.segments)) }
    ensures counted { IfOk result (λ found. length found.codes ≡ count) }
    ensures malformed { IfErr result (λ e. e ≡ ReadFault.Malformed → (m : Syntax X.Seen)
        → AreOf X.spells (map section_view sections.now) m → length m.codes ≡ count → ⊥) }
{
    let globals = held::<GlobalEntry<X>>(alloc, sections, 6)?;
    let exports = held::<ExportEntry>(alloc, sections, 7)?;
    let start = start_of(sections)?;
    let elements = held::<ElementEntry<X>>(alloc, sections, 9)?;
    let codes = held::<CodeEntry<X>>(alloc, sections, 10)?;
    let segments = held::<SegmentEntry<X>>(alloc, sections, 11)?;
    if codes.len() != count {
        return Err(ReadFault::Malformed);
    }
    Ok(Defined {
        globals,
        exports,
        start,
        elements,
        codes,
        segments,
    })
}

/// Reads what the sections hold.
pub(crate) fn parts_of<X: Expression>(
    alloc: Global,
    sections: &[Section],
) -> Result<PartsOf<X>, ReadFault>
    ensures found { IfOk result
        (λ parts. AreOf X.spells (map section_view sections.now)
        (parts_view X.global_seen X.element_seen X.code_seen X.segment_seen parts)) }
    ensures malformed { IfErr result (λ e. e ≡ ReadFault.Malformed → (m : Syntax X.Seen)
        → AreOf X.spells (map section_view sections.now) m → ⊥) }
{
    let declared = declared_in(alloc, sections)?;
    let defined = defined_in::<X>(alloc, sections, declared.funcs.len())?;
    Ok(Parts { declared, defined })
}
