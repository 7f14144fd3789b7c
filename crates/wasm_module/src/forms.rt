// The forms of the entries of lists.
ghost use Rattle.std.specs.Prelude.{◌≡◌, List, Option, IfOk, IfErr, IfSome, IfNone};
ghost use Rattle.byte_fields.specs.Front.{Begins, BeginsNone, BeginsOnly};
ghost use Rattle.wasm_values.specs.Spelling.{SpellsList};
ghost use Rattle.wasm_values.specs.Values.{IsResult, SpellsResult, SpellsValType};
ghost use Rattle.wasm_values.specs.declared.types.ValType.{ValType};

use crate::codes::LocalRun;
use byte_fields::Cursor;
use std::alloc::Global;
use wasm_values::{
    Bounds, Entries, Export, Form, FuncType, Import, ReadFault, ValType, ValTypes, bounds, entries,
    export_desc, import_desc, mark, name, table_type, val_type,
};

/// A value type.
pub(crate) enum ValueType {}

impl Form for ValueType {
    type Value = ValType;

    ghost use Rattle.wasm_values.specs.declared.types.ValType.{ValType};
    ghost use Rattle.wasm_values.specs.Values.{SpellsValType};

    ghost Seen = { ValType };

    ghost seen = { λ value. value };

    ghost spells = { SpellsValType };

    fn read(_alloc: Global, cursor: &mut Cursor) -> Result<ValType, ReadFault> {
        val_type(cursor)
    }
}

// The result that a list of value types is, which has one at most.
fn at_most_one(list: &[ValType]) -> Option<Option<ValType>>
    ensures found { IfSome result (λ value. IsResult list.now value) }
    ensures none { IfNone result ((value : Option ValType) → IsResult list.now value → ⊥) }
{
    match list {
        [] => Some(None),
        [value] => Some(Some(*value)),
        _ => None,
    }
}

// Reads a list of value types.
fn value_types(alloc: Global, cursor: &mut Cursor) -> Result<ValTypes, ReadFault>
    ensures found { IfOk result (λ value. Begins (SpellsList SpellsValType) cursor.old.0 value cursor.new.0) }
    ensures only { IfOk result
        (λ value. BeginsOnly (SpellsList SpellsValType) cursor.old.0 value cursor.new.0) }
    ensures malformed { IfErr result (λ e. e ≡ ReadFault.Malformed
        → BeginsNone (SpellsList SpellsValType) cursor.old.0) }
{
    let list = entries::<ValueType>(alloc, cursor)?;
    let kept = Entries::of(list)?;
    Ok(kept)
}

// Reads the result of a function's type.
fn result_type(alloc: Global, cursor: &mut Cursor) -> Result<Option<ValType>, ReadFault>
    ensures found { IfOk result (λ value. Begins SpellsResult cursor.old.0 value cursor.new.0) }
    ensures only { IfOk result (λ value. BeginsOnly SpellsResult cursor.old.0 value cursor.new.0) }
    ensures malformed { IfErr result (λ e. e ≡ ReadFault.Malformed → BeginsNone SpellsResult cursor.old.0) }
{
    let results = value_types(alloc, cursor)?;
    match at_most_one(results.as_slice()) {
        Some(value) => Ok(value),
        None => Err(ReadFault::Malformed),
    }
}

/// A function's type.
pub(crate) enum FunctionType {}

impl Form for FunctionType {
    type Value = FuncType;

    ghost use Rattle.wasm_values.specs.declared.types.FuncType.{FuncType};
    ghost use Rattle.wasm_values.specs.Values.{SpellsFuncType};

    ghost Seen = { FuncType };

    ghost seen = { λ value. value };

    ghost spells = { SpellsFuncType };

    fn read(alloc: Global, cursor: &mut Cursor) -> Result<FuncType, ReadFault> {
        mark(cursor, 0x60)?;
        let params = value_types(alloc, cursor)?;
        let result = result_type(alloc, cursor)?;
        Ok(FuncType { params, result })
    }
}

/// A table's type.
pub(crate) enum TableType {}

impl Form for TableType {
    type Value = Bounds;

    ghost use Rattle.wasm_values.specs.declared.types.Bounds.{Bounds};
    ghost use Rattle.wasm_values.specs.Values.{SpellsTableType};

    ghost Seen = { Bounds };

    ghost seen = { λ value. value };

    ghost spells = { SpellsTableType };

    fn read(_alloc: Global, cursor: &mut Cursor) -> Result<Bounds, ReadFault> {
        table_type(cursor)
    }
}

/// A memory's type, its limits.
pub(crate) enum MemoryType {}

impl Form for MemoryType {
    type Value = Bounds;

    ghost use Rattle.wasm_values.specs.declared.types.Bounds.{Bounds};
    ghost use Rattle.wasm_values.specs.Values.{SpellsBounds};

    ghost Seen = { Bounds };

    ghost seen = { λ value. value };

    ghost spells = { SpellsBounds };

    fn read(_alloc: Global, cursor: &mut Cursor) -> Result<Bounds, ReadFault> {
        bounds(cursor)
    }
}

/// An import.
pub(crate) enum ImportEntry {}

impl Form for ImportEntry {
    type Value = Import;

    ghost use Rattle.wasm_values.specs.declared.imports.Import.{Import};
    ghost use Rattle.wasm_values.specs.Values.{SpellsImport};

    ghost Seen = { Import };

    ghost seen = { λ value. value };

    ghost spells = { SpellsImport };

    fn read(alloc: Global, cursor: &mut Cursor) -> Result<Import, ReadFault> {
        let module = name(alloc, cursor)?;
        let name = name(alloc, cursor)?;
        let desc = import_desc(cursor)?;
        Ok(Import { module, name, desc })
    }
}

/// An export.
pub(crate) enum ExportEntry {}

impl Form for ExportEntry {
    type Value = Export;

    ghost use Rattle.wasm_values.specs.declared.exports.Export.{Export};
    ghost use Rattle.wasm_values.specs.Values.{SpellsExport};

    ghost Seen = { Export };

    ghost seen = { λ value. value };

    ghost spells = { SpellsExport };

    fn read(alloc: Global, cursor: &mut Cursor) -> Result<Export, ReadFault> {
        let name = name(alloc, cursor)?;
        let desc = export_desc(cursor)?;
        Ok(Export { name, desc })
    }
}

/// A run of locals.
pub(crate) enum LocalEntry {}

impl Form for LocalEntry {
    type Value = LocalRun;

    ghost use Rattle.wasm_module.specs.declared.codes.LocalRun.{LocalRun};
    ghost use Rattle.wasm_module.specs.Entries.{SpellsLocalRun};

    ghost Seen = { LocalRun };

    ghost seen = { λ value. value };

    ghost spells = { SpellsLocalRun };

    fn read(_alloc: Global, cursor: &mut Cursor) -> Result<LocalRun, ReadFault> {
        let count = cursor.leb_u32()?;
        let value = val_type(cursor)?;
        Ok(LocalRun { count, value })
    }
}
