// Readers of names, types and descriptions.
ghost use Rattle.std.specs.Prelude.{◌≡◌, List, ℕ, [], ◌∷◌, length, Option, IfOk, OnOk, IfErr, IfSome, IfNone};
ghost use Rattle.byte_fields.specs.Front.{Begins, BeginsNone, BeginsOnly};
ghost use Rattle.wasm_values.specs.Spelling.{SpellsBytes, SpellsMark};
ghost use Rattle.wasm_values.specs.Values.{SpellsBlockType, SpellsBounds, SpellsExportDesc};
ghost use Rattle.wasm_values.specs.Values.{SpellsGlobalType, SpellsImportDesc, SpellsMutable};
ghost use Rattle.wasm_values.specs.Values.{SpellsName, SpellsTableType, SpellsValType};
ghost use Rattle.wasm_values.specs.declared.types.ValType.{ValType};

use crate::entry_lists::{Blob, Entries, Name};
use crate::exports::ExportDesc;
use crate::imports::ImportDesc;
use crate::read::ReadFault;
use crate::types::{Bounds, GlobalType, ValType};
use byte_fields::Cursor;
use std::alloc::Global;
use std::str;

/// Reads the one byte that has to stand here.
pub fn mark(cursor: &mut Cursor, byte: u8) -> Result<(), ReadFault>
    ensures found { OnOk result (Begins (SpellsMark byte) cursor.old.0 tt cursor.new.0) }
    ensures only { OnOk result (BeginsOnly (SpellsMark byte) cursor.old.0 tt cursor.new.0) }
    ensures malformed { IfErr result (λ e. e ≡ ReadFault.Malformed
        → BeginsNone (SpellsMark byte) cursor.old.0) }
    ensures cause { IfErr result (λ e. e ≡ ReadFault.Malformed) }
{
    if cursor.u8()? == byte {
        Ok(())
    } else {
        Err(ReadFault::Malformed)
    }
}

// The value type that this byte spells.
fn val_type_of(byte: u8) -> Option<ValType>
    ensures found { IfSome result (λ value. SpellsValType (byte ∷ []) value) }
    ensures none { IfNone result ((value : ValType) → SpellsValType (byte ∷ []) value → ⊥) }
{
    match byte {
        0x7f => Some(ValType::I32),
        0x7e => Some(ValType::I64),
        0x7d => Some(ValType::F32),
        0x7c => Some(ValType::F64),
        _ => None,
    }
}

/// Reads a value type.
pub fn val_type(cursor: &mut Cursor) -> Result<ValType, ReadFault>
    ensures found { IfOk result (λ value. Begins SpellsValType cursor.old.0 value cursor.new.0) }
    ensures only { IfOk result (λ value. BeginsOnly SpellsValType cursor.old.0 value cursor.new.0) }
    ensures malformed { IfErr result (λ e. e ≡ ReadFault.Malformed → BeginsNone SpellsValType cursor.old.0) }
    ensures cause { IfErr result (λ e. e ≡ ReadFault.Malformed) }
{
    let byte = cursor.u8()?;
    match val_type_of(byte) {
        Some(value) => Ok(value),
        None => Err(ReadFault::Malformed),
    }
}

/// Reads a block's type.
pub(crate) fn block_type(cursor: &mut Cursor) -> Result<Option<ValType>, ReadFault>
    ensures found { IfOk result (λ kind. Begins SpellsBlockType cursor.old.0 kind cursor.new.0) }
    ensures only { IfOk result (λ kind. BeginsOnly SpellsBlockType cursor.old.0 kind cursor.new.0) }
    ensures malformed { IfErr result (λ e. e ≡ ReadFault.Malformed
        → BeginsNone SpellsBlockType cursor.old.0) }
    ensures cause { IfErr result (λ e. e ≡ ReadFault.Malformed) }
{
    let byte = cursor.u8()?;
    if byte == 0x40 {
        return Ok(None);
    }
    match val_type_of(byte) {
        Some(value) => Ok(Some(value)),
        None => Err(ReadFault::Malformed),
    }
}

/// Reads the limits of a table or a memory.
pub fn bounds(cursor: &mut Cursor) -> Result<Bounds, ReadFault>
    ensures found { IfOk result (λ bounds. Begins SpellsBounds cursor.old.0 bounds cursor.new.0) }
    ensures only { IfOk result (λ bounds. BeginsOnly SpellsBounds cursor.old.0 bounds cursor.new.0) }
    ensures malformed { IfErr result (λ e. e ≡ ReadFault.Malformed → BeginsNone SpellsBounds cursor.old.0) }
    ensures cause { IfErr result (λ e. e ≡ ReadFault.Malformed) }
{
    let tag = cursor.u8()?;
    match tag {
        0x00 => {
            let min = cursor.leb_u32()?;
            Ok(Bounds { min, max: None })
        }
        0x01 => {
            let min = cursor.leb_u32()?;
            let most = cursor.leb_u32()?;
            Ok(Bounds {
                min,
                max: Some(most),
            })
        }
        _ => Err(ReadFault::Malformed),
    }
}

/// Reads a table's type.
pub fn table_type(cursor: &mut Cursor) -> Result<Bounds, ReadFault>
    ensures found { IfOk result (λ bounds. Begins SpellsTableType cursor.old.0 bounds cursor.new.0) }
    ensures only { IfOk result (λ bounds. BeginsOnly SpellsTableType cursor.old.0 bounds cursor.new.0) }
    ensures malformed { IfErr result (λ e. e ≡ ReadFault.Malformed
        → BeginsNone SpellsTableType cursor.old.0) }
    ensures cause { IfErr result (λ e. e ≡ ReadFault.Malformed) }
{
    mark(cursor, 0x70)?;
    let limits = bounds(cursor)?;
    Ok(limits)
}

// Whether a global may be set.
fn mutable(cursor: &mut Cursor) -> Result<bool, ReadFault>
    ensures found { IfOk result (λ value. Begins SpellsMutable cursor.old.0 value cursor.new.0) }
    ensures only { IfOk result (λ value. BeginsOnly SpellsMutable cursor.old.0 value cursor.new.0) }
    ensures malformed { IfErr result (λ e. e ≡ ReadFault.Malformed → BeginsNone SpellsMutable cursor.old.0) }
    ensures cause { IfErr result (λ e. e ≡ ReadFault.Malformed) }
{
    let byte = cursor.u8()?;
    match byte {
        0x00 => Ok(false),
        0x01 => Ok(true),
        _ => Err(ReadFault::Malformed),
    }
}

/// Reads a global's type.
pub fn global_type(cursor: &mut Cursor) -> Result<GlobalType, ReadFault>
    ensures found { IfOk result (λ value. Begins SpellsGlobalType cursor.old.0 value cursor.new.0) }
    ensures only { IfOk result (λ value. BeginsOnly SpellsGlobalType cursor.old.0 value cursor.new.0) }
    ensures malformed { IfErr result (λ e. e ≡ ReadFault.Malformed
        → BeginsNone SpellsGlobalType cursor.old.0) }
    ensures cause { IfErr result (λ e. e ≡ ReadFault.Malformed) }
{
    let value = val_type(cursor)?;
    let mutable = mutable(cursor)?;
    Ok(GlobalType { value, mutable })
}

/// Reads what is imported.
pub fn import_desc(cursor: &mut Cursor) -> Result<ImportDesc, ReadFault>
    ensures found { IfOk result (λ value. Begins SpellsImportDesc cursor.old.0 value cursor.new.0) }
    ensures only { IfOk result (λ value. BeginsOnly SpellsImportDesc cursor.old.0 value cursor.new.0) }
    ensures malformed { IfErr result (λ e. e ≡ ReadFault.Malformed
        → BeginsNone SpellsImportDesc cursor.old.0) }
    ensures cause { IfErr result (λ e. e ≡ ReadFault.Malformed) }
{
    let tag = cursor.u8()?;
    match tag {
        0x00 => {
            let index = cursor.leb_u32()?;
            Ok(ImportDesc::Func(index))
        }
        0x01 => {
            let limits = table_type(cursor)?;
            Ok(ImportDesc::Table(limits))
        }
        0x02 => {
            let limits = bounds(cursor)?;
            Ok(ImportDesc::Memory(limits))
        }
        0x03 => {
            let kind = global_type(cursor)?;
            Ok(ImportDesc::Global(kind))
        }
        _ => Err(ReadFault::Malformed),
    }
}

/// Reads what is exported.
pub fn export_desc(cursor: &mut Cursor) -> Result<ExportDesc, ReadFault>
    ensures found { IfOk result (λ value. Begins SpellsExportDesc cursor.old.0 value cursor.new.0) }
    ensures only { IfOk result (λ value. BeginsOnly SpellsExportDesc cursor.old.0 value cursor.new.0) }
    ensures malformed { IfErr result (λ e. e ≡ ReadFault.Malformed
        → BeginsNone SpellsExportDesc cursor.old.0) }
    ensures cause { IfErr result (λ e. e ≡ ReadFault.Malformed) }
{
    let tag = cursor.u8()?;
    match tag {
        0x00 => {
            let index = cursor.leb_u32()?;
            Ok(ExportDesc::Func(index))
        }
        0x01 => {
            let index = cursor.leb_u32()?;
            Ok(ExportDesc::Table(index))
        }
        0x02 => {
            let index = cursor.leb_u32()?;
            Ok(ExportDesc::Memory(index))
        }
        0x03 => {
            let index = cursor.leb_u32()?;
            Ok(ExportDesc::Global(index))
        }
        _ => Err(ReadFault::Malformed),
    }
}

/// Reads a list of bytes, which are lent.
pub fn counted<'a>(cursor: &mut Cursor<'a>) -> Result<&'a [u8], ReadFault>
    ensures found { IfOk result (λ value. Begins SpellsBytes cursor.old.0 value.now cursor.new.0) }
    ensures only { IfOk result (λ value. BeginsOnly SpellsBytes cursor.old.0 value.now cursor.new.0) }
    ensures malformed { IfErr result (λ e. e ≡ ReadFault.Malformed → BeginsNone SpellsBytes cursor.old.0) }
    ensures cause { IfErr result (λ e. e ≡ ReadFault.Malformed) }
{
    let count = cursor.leb_u32()?;
    let content = cursor.take(count as usize)?;
    Ok(content)
}

/// Reads a name.
pub fn name(alloc: Global, cursor: &mut Cursor) -> Result<Name, ReadFault>
    ensures found { IfOk result (λ value. Begins SpellsName cursor.old.0 value cursor.new.0) }
    ensures only { IfOk result (λ value. BeginsOnly SpellsName cursor.old.0 value cursor.new.0) }
    ensures malformed { IfErr result (λ e. e ≡ ReadFault.Malformed → BeginsNone SpellsName cursor.old.0) }
{
    let text = counted(cursor)?;
    let Ok(_) = str::from_utf8(text) else {
        return Err(ReadFault::Malformed);
    };
    let list = Vec::from_slice(alloc, text)?;
    let kept = Entries::of(list)?;
    Ok(kept)
}

/// Reads a list of bytes.
pub fn blob(alloc: Global, cursor: &mut Cursor) -> Result<Blob, ReadFault>
    ensures found { IfOk result (λ value. Begins SpellsBytes cursor.old.0 value cursor.new.0) }
    ensures only { IfOk result (λ value. BeginsOnly SpellsBytes cursor.old.0 value cursor.new.0) }
    ensures malformed { IfErr result (λ e. e ≡ ReadFault.Malformed → BeginsNone SpellsBytes cursor.old.0) }
{
    let content = counted(cursor)?;
    let list = Vec::from_slice(alloc, content)?;
    let kept = Entries::of(list)?;
    Ok(kept)
}
