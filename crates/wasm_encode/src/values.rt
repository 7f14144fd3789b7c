// Writers of names, types and descriptions.
ghost use Rattle.std.specs.Prelude.{◌≡◌, ◌^◌, ◌<◌, [], ◌∷◌, length, OnOk};
ghost use Rattle.wasm_encode.specs.inner.Gains.{Gains, IsSpelled};
ghost use Rattle.wasm_values.specs.Spelling.{SpellsBytes};
ghost use Rattle.wasm_values.specs.Values.{SpellsBlockType, SpellsBounds, SpellsExportDesc};
ghost use Rattle.wasm_values.specs.Values.{SpellsGlobalType, SpellsImportDesc, SpellsMutable};
ghost use Rattle.wasm_values.specs.Values.{SpellsName, SpellsResult, SpellsTableType, SpellsValType};

use crate::NoMemory;
use byte_fields::put_leb_u32;
use wasm_module::{Bounds, ExportDesc, GlobalType, ImportDesc, Name, ValType};

/// Writes bytes behind their count.
pub(crate) fn put_bytes(out: &mut Vec<u8>, content: &[u8]) -> Result<(), NoMemory>
    requires { length content.now < 2 ^ 32 }
    ensures { OnOk result (Gains SpellsBytes content.now out.old.items out.new.items) }
{
    put_leb_u32(out, content.len() as u32)?;
    out.extend_from_slice(content)
}

/// Writes a name.
pub(crate) fn put_name(out: &mut Vec<u8>, name: &Name) -> Result<(), NoMemory>
    requires { IsSpelled SpellsName name.now }
    ensures { OnOk result (Gains SpellsName name.now out.old.items out.new.items) }
{
    put_bytes(out, name.as_slice())
}

/// The byte of a value type.
fn val_code(value: ValType) -> u8
    ensures { SpellsValType (result ∷ []) value }
{
    match value {
        ValType::I32 => 0x7f,
        ValType::I64 => 0x7e,
        ValType::F32 => 0x7d,
        ValType::F64 => 0x7c,
    }
}

/// Writes a value type.
pub(crate) fn put_val_type(out: &mut Vec<u8>, value: ValType) -> Result<(), NoMemory>
    ensures { OnOk result (Gains SpellsValType value out.old.items out.new.items) }
{
    Ok(out.push(val_code(value))?)
}

/// The byte of a block's type.
fn block_code(kind: Option<ValType>) -> u8
    ensures { SpellsBlockType (result ∷ []) kind }
{
    match kind {
        None => 0x40,
        Some(value) => val_code(value),
    }
}

/// Writes a block's type.
pub(crate) fn put_block_type(out: &mut Vec<u8>, kind: Option<ValType>) -> Result<(), NoMemory>
    ensures { OnOk result (Gains SpellsBlockType kind out.old.items out.new.items) }
{
    Ok(out.push(block_code(kind))?)
}

/// Writes the list of a function's results.
pub(crate) fn put_results(out: &mut Vec<u8>, single: Option<ValType>) -> Result<(), NoMemory>
    ensures { OnOk result (Gains SpellsResult single out.old.items out.new.items) }
{
    match single {
        None => Ok(out.push(0x00)?),
        Some(value) => {
            out.push(0x01)?;
            put_val_type(out, value)
        }
    }
}

/// Writes the limits of a table or a memory.
pub(crate) fn put_bounds(out: &mut Vec<u8>, bounds: &Bounds) -> Result<(), NoMemory>
    ensures { OnOk result (Gains SpellsBounds bounds.now out.old.items out.new.items) }
{
    match bounds.max {
        None => {
            out.push(0x00)?;
            put_leb_u32(out, bounds.min)
        }
        Some(most) => {
            out.push(0x01)?;
            put_leb_u32(out, bounds.min)?;
            put_leb_u32(out, most)
        }
    }
}

/// Writes a table's type.
pub(crate) fn put_table_type(out: &mut Vec<u8>, bounds: &Bounds) -> Result<(), NoMemory>
    ensures { OnOk result (Gains SpellsTableType bounds.now out.old.items out.new.items) }
{
    out.push(0x70)?;
    put_bounds(out, bounds)
}

/// The byte that says whether a global may be set.
fn mutable_code(mutable: bool) -> u8
    ensures { SpellsMutable (result ∷ []) mutable }
{
    if mutable { 0x01 } else { 0x00 }
}

/// Writes a global's type.
pub(crate) fn put_global_type(out: &mut Vec<u8>, kind: &GlobalType) -> Result<(), NoMemory>
    ensures { OnOk result (Gains SpellsGlobalType kind.now out.old.items out.new.items) }
{
    put_val_type(out, kind.value)?;
    Ok(out.push(mutable_code(kind.mutable))?)
}

/// Writes what is imported.
pub(crate) fn put_import_desc(out: &mut Vec<u8>, desc: &ImportDesc) -> Result<(), NoMemory>
    ensures { OnOk result (Gains SpellsImportDesc desc.now out.old.items out.new.items) }
{
    match desc {
        ImportDesc::Func(index) => {
            out.push(0x00)?;
            put_leb_u32(out, *index)
        }
        ImportDesc::Table(bounds) => {
            out.push(0x01)?;
            put_table_type(out, bounds)
        }
        ImportDesc::Memory(bounds) => {
            out.push(0x02)?;
            put_bounds(out, bounds)
        }
        ImportDesc::Global(kind) => {
            out.push(0x03)?;
            put_global_type(out, kind)
        }
    }
}

/// Writes what is exported.
pub(crate) fn put_export_desc(out: &mut Vec<u8>, desc: &ExportDesc) -> Result<(), NoMemory>
    ensures { OnOk result (Gains SpellsExportDesc desc.now out.old.items out.new.items) }
{
    match desc {
        ExportDesc::Func(index) => {
            out.push(0x00)?;
            put_leb_u32(out, *index)
        }
        ExportDesc::Table(index) => {
            out.push(0x01)?;
            put_leb_u32(out, *index)
        }
        ExportDesc::Memory(index) => {
            out.push(0x02)?;
            put_leb_u32(out, *index)
        }
        ExportDesc::Global(index) => {
            out.push(0x03)?;
            put_leb_u32(out, *index)
        }
    }
}
