// The reader of modules.
ghost use Rattle.std.specs.Prelude.{◌≡◌, ◌++◌, ◌⊎◌, List, ℕ, length, map, IfOk, IfErr, MatchOption};
ghost use Rattle.wasm_values.specs.Syntax.{Ops};
ghost use Rattle.wasm_values.specs.Instructions.{SpellsExpression};
ghost use Rattle.wasm_values.specs.inner.Nested.{SpellsLimited};
ghost use Rattle.wasm_values.specs.inner.Skimmed.{SpellsSome};
ghost use Rattle.wasm_module.specs.Sections.{AreOf, AreSections, Section as SectionView, Spells};
ghost use Rattle.wasm_module.specs.Sections.{Syntax, module_view, opening};
ghost use Rattle.wasm_module.specs.Limits.{IsTooLarge, IsWithin, PassesFirst, WithinBytes};
ghost use Rattle.wasm_module.specs.Limits.{WithinNesting};
ghost use Rattle.wasm_module.specs.inner.Parts.{section_view};
ghost use Rattle.wasm_module.specs.declared.module.Limit.{Limit};

use crate::expressions::{Limited, Skimmed};
use crate::limits::passed_limit;
use crate::module::{DecodeFault, Limit, Module};
use crate::outline::{Section, are_ordered, split};
use crate::parts::{DefinedOf, parts_of};
use std::alloc::Global;
use wasm_values::ReadFault;

// 1 MiB.
const MOST_BYTES: usize = 1_048_576;

const MOST_FUNCTIONS: u64 = 10_000;

const OPENING: [u8; 8] = [0x00, 0x61, 0x73, 0x6d, 0x01, 0x00, 0x00, 0x00];

impl From<ReadFault> for DecodeFault {
    ghost use Rattle.std.specs.Prelude.{◌≡◌};
    ghost use Rattle.wasm_module.specs.Faults.{decode_fault};

    ghost from_gives = { λ fault e. e ≡ decode_fault fault };

    fn from(fault: ReadFault) -> Self {
        match fault {
            ReadFault::Malformed => DecodeFault::Malformed,
            ReadFault::Memory => DecodeFault::Memory,
        }
    }
}

/// Reads the module that the bytes spell: WebAssembly Core 1.0, chapter 5, without the validation of
/// chapter 3. Custom sections are checked and not kept.
///
/// More than 1 MiB is refused before anything is read. A module that nests however deep is refused
/// without a deep machine stack.
pub fn decode(alloc: Global, bytes: &[u8]) -> Result<Module, DecodeFault>
    ensures found { IfOk result (λ found. Spells bytes.now (module_view found)) }
    ensures within { IfOk result (λ found. WithinBytes bytes.now × IsWithin (module_view found)) }
    ensures malformed { IfErr result (λ e. e ≡ DecodeFault.Malformed
        → WithinBytes bytes.now × ((m : Syntax Ops) → Spells bytes.now m → ⊥)) }
    ensures too_large { IfErr result (λ e. (limit : Limit) → e ≡ DecodeFault.TooLarge limit
        → IsTooLarge bytes.now limit) }
    ensures complete { (m : Syntax Ops) → Spells bytes.now m → WithinBytes bytes.now → IsWithin m
        → IfErr result (λ e. e ≡ DecodeFault.Memory) }
    ensures once { (m n : Syntax Ops) → Spells bytes.now m → Spells bytes.now n → m ≡ n }
{
    if bytes.len() > MOST_BYTES {
        return Err(DecodeFault::TooLarge(Limit::Bytes));
    }
    let list = sections_of(alloc, bytes)?;
    let sections = list.as_slice();
    match module_of(alloc, sections) {
        Ok(module) => within_limits(module),
        Err(ReadFault::Malformed) => Err(refusal(alloc, sections)),
        Err(ReadFault::Memory) => Err(DecodeFault::Memory),
    }
}

// The module, where it passes no limit.
fn within_limits(whole: Module) -> Result<Module, DecodeFault>
    requires { WithinNesting (module_view whole) }
    ensures same { IfOk result (λ found. found ≡ whole) }
    ensures within { IfOk result (λ found. IsWithin (module_view found)) }
    ensures too_large { IfErr result (λ e. (limit : Limit) × (e ≡ DecodeFault.TooLarge limit)
        × PassesFirst limit (module_view whole)) }
{
    match passed_limit(&whole) {
        Some(limit) => Err(DecodeFault::TooLarge(limit)),
        None => Ok(whole),
    }
}

// The bytes behind the opening.
fn behind_opening(bytes: &[u8]) -> Option<&[u8]>
    ensures { MatchOption result ((text : List ℕ) → bytes.now ≡ opening ++ text → ⊥)
        (λ text. bytes.now ≡ opening ++ text.now) }
{
    if bytes.len() >= OPENING.len() && &bytes[..OPENING.len()] == OPENING.as_slice() {
        Some(&bytes[OPENING.len()..])
    } else {
        None
    }
}

// The sections that the bytes are, in their order.
fn sections_of<'a>(alloc: Global, bytes: &'a [u8]) -> Result<Vec<Section<'a>>, ReadFault>
    ensures found { IfOk result (λ list. AreSections bytes.entry.now (map section_view list.items)) }
    ensures only { IfOk result (λ list. (other : List SectionView) → AreSections bytes.entry.now other
        → other ≡ map section_view list.items) }
    ensures malformed { IfErr result (λ e. e ≡ ReadFault.Malformed → (other : List SectionView)
        → AreSections bytes.entry.now other → ⊥) }
{
    let Some(text) = behind_opening(bytes) else {
        return Err(ReadFault::Malformed);
    };
    let sections = split(alloc, text)?;
    if are_ordered(&sections) {
        Ok(sections)
    } else {
        Err(ReadFault::Malformed)
    }
}

// Reads what the sections hold, with blocks within the limit of nesting.
fn module_of(alloc: Global, sections: &[Section]) -> Result<Module, ReadFault>
    ensures found { IfOk result
        (λ found. AreOf SpellsLimited (map section_view sections.now) (module_view found)) }
    ensures malformed { IfErr result (λ e. e ≡ ReadFault.Malformed → (m : Syntax Ops)
        → AreOf SpellsLimited (map section_view sections.now) m → ⊥) }
{
    let parts = parts_of::<Limited>(alloc, sections)?;
    Ok(Module {
        types: parts.declared.types,
        imports: parts.declared.imports,
        funcs: parts.declared.funcs,
        tables: parts.declared.tables,
        memories: parts.declared.memories,
        globals: parts.defined.globals,
        exports: parts.defined.exports,
        start: parts.defined.start,
        elements: parts.defined.elements,
        codes: parts.defined.codes,
        segments: parts.defined.segments,
    })
}

// Passes over what the sections hold, and counts the codes.
fn skim_module(alloc: Global, sections: &[Section]) -> Result<u64, ReadFault>
    ensures found { IfOk result
        (λ count. (m : Syntax (Unit {0})) × AreOf SpellsSome (map section_view sections.now) m
        × (length m.codes ≡ count)) }
    ensures malformed { IfErr result (λ e. e ≡ ReadFault.Malformed → (m : Syntax (Unit {0}))
        → AreOf SpellsSome (map section_view sections.now) m → ⊥) }
{
    let parts = parts_of::<Skimmed>(alloc, sections)?;
    Ok(code_count(parts.defined))
}

// The number of codes, of which nothing else is needed.
fn code_count(defined: DefinedOf<Skimmed>) -> u64
    ensures { result ≡ length defined.codes }
{
    defined.codes.len()
}

// Why sections are refused that hold no module within the limit of nesting.
fn refusal(alloc: Global, sections: &[Section]) -> DecodeFault
    requires { (m : Syntax Ops) → AreOf SpellsLimited (map section_view sections.now) m → ⊥ }
    ensures malformed { result ≡ DecodeFault.Malformed → (m : Syntax Ops)
        → AreOf SpellsExpression (map section_view sections.now) m → ⊥ }
    ensures too_large { (limit : Limit) → result ≡ DecodeFault.TooLarge limit
        → (m : Syntax Ops) × AreOf SpellsExpression (map section_view sections.now) m × PassesFirst limit m }
    ensures not_bytes { result ≡ DecodeFault.TooLarge Limit.Bytes → ⊥ }
{
    match skim_module(alloc, sections) {
        Ok(count) if count > MOST_FUNCTIONS => DecodeFault::TooLarge(Limit::Functions),
        Ok(_) => DecodeFault::TooLarge(Limit::Nesting),
        Err(fault) => DecodeFault::from(fault),
    }
}
