// Writers of sections, and of the module.
ghost use Rattle.std.specs.Prelude.{◌≡◌, ◌^◌, ◌<◌, ℕ, List, [], ◌∷◌, ◌++◌, length, map, None, IfOk, OnOk};
ghost use Rattle.byte_fields.specs.Front.{SpellsShortest};
ghost use Rattle.wasm_encode.specs.inner.Gains.{Gains, IsSpelled};
ghost use Rattle.wasm_encode.specs.inner.Parts.{SpellsPart};
ghost use Rattle.wasm_module.specs.Sections.{Spells, SpellsStart, module_view};
ghost use Rattle.wasm_values.specs.Spelling.{SpellsBytes, SpellsList};

use crate::NoMemory;
use crate::entries::{
    CodeEntry, ElementEntry, ExportEntry, GlobalEntry, ImportEntry, MemoryEntry, SegmentEntry,
    TableEntry, TypeEntry,
};
use crate::values::put_bytes;
use crate::written::{IndexEntry, Written, put_list};
use byte_fields::put_leb_u32;
use std::alloc::Global;
use wasm_module::Module;

// The bytes that name the form, and its version.
const OPENING: [u8; 8] = [0x00, 0x61, 0x73, 0x6d, 0x01, 0x00, 0x00, 0x00];

/// Writes a module in its shortest form: WebAssembly Core 1.0, chapter 5.
///
/// So it has no custom section, no section that would be empty, no `else` before an empty second
/// part, and each number in its shortest LEB128. Of the bytes that are left where memory runs out
/// nothing is kept.
pub fn encode(alloc: Global, whole: &Module) -> Result<Vec<u8>, NoMemory>
    requires { (text : List ℕ) × Spells text (module_view whole.now) }
    ensures shortest { IfOk result (λ bytes. SpellsShortest Spells bytes.items (module_view whole.now)) }
    ensures once { IfOk result (λ bytes. (other : List ℕ)
        → SpellsShortest Spells other (module_view whole.now) → other ≡ bytes.items) }
{
    let mut out = OPENING.to_vec(alloc)?;
    put_part::<TypeEntry>(alloc, &mut out, 1, whole.types.as_slice())?;
    put_part::<ImportEntry>(alloc, &mut out, 2, whole.imports.as_slice())?;
    put_part::<IndexEntry>(alloc, &mut out, 3, whole.funcs.as_slice())?;
    put_part::<TableEntry>(alloc, &mut out, 4, whole.tables.as_slice())?;
    put_part::<MemoryEntry>(alloc, &mut out, 5, whole.memories.as_slice())?;
    put_part::<GlobalEntry>(alloc, &mut out, 6, whole.globals.as_slice())?;
    put_part::<ExportEntry>(alloc, &mut out, 7, whole.exports.as_slice())?;
    put_start(alloc, &mut out, whole.start)?;
    put_part::<ElementEntry>(alloc, &mut out, 9, whole.elements.as_slice())?;
    put_part::<CodeEntry>(alloc, &mut out, 10, whole.codes.as_slice())?;
    put_part::<SegmentEntry>(alloc, &mut out, 11, whole.segments.as_slice())?;
    Ok(out)
}

/// Writes a section: its number, and its content behind its size.
fn put_section(out: &mut Vec<u8>, number: u8, content: &[u8]) -> Result<(), NoMemory>
    requires { length content.now < 2 ^ 32 }
    ensures { OnOk result (Gains SpellsBytes content.now (out.old.items ++ number ∷ []) out.new.items) }
{
    out.push(number)?;
    put_bytes(out, content)
}

/// Writes the section of a list, or nothing for the empty list.
fn put_part<W: Written>(
    alloc: Global,
    out: &mut Vec<u8>,
    number: u8,
    list: &[W::Value],
) -> Result<(), NoMemory>
    requires { IsSpelled (SpellsPart number (SpellsList W.spells) []) (map W.seen list.now) }
    ensures { OnOk result
        (Gains (SpellsPart number (SpellsList W.spells) [])
        (map W.seen list.now) out.old.items out.new.items) }
{
    if list.is_empty() {
        return Ok(());
    }
    let mut content = Vec::new(alloc);
    put_list::<W>(alloc, &mut content, list)?;
    put_section(out, number, &content)
}

/// Writes the section of the start function, or nothing where there is none.
fn put_start(alloc: Global, out: &mut Vec<u8>, start: Option<u32>) -> Result<(), NoMemory>
    requires { IsSpelled (SpellsPart 8 SpellsStart None) start }
    ensures { OnOk result (Gains (SpellsPart 8 SpellsStart None) start out.old.items out.new.items) }
{
    let Some(func) = start else {
        return Ok(());
    };
    let mut content = Vec::new(alloc);
    put_leb_u32(&mut content, func)?;
    put_section(out, 8, &content)
}
