// Writers of the entries of lists.
ghost use Rattle.std.specs.Prelude.{◌≡◌, ℕ, List, OnOk};
ghost use Rattle.wasm_encode.specs.inner.Gains.{Gains, IsSpelled};
ghost use Rattle.wasm_module.specs.Entries.{SpellsLocalRun, code_view};
ghost use Rattle.wasm_values.specs.Instructions.{SpellsExpression};
ghost use Rattle.wasm_values.specs.Spelling.{SpellsList, Then};

use crate::NoMemory;
use crate::instrs::put_expression;
use crate::values::{
    put_bounds, put_bytes, put_export_desc, put_global_type, put_import_desc, put_name,
    put_results, put_table_type, put_val_type,
};
use crate::written::{IndexEntry, Written, put_list};
use byte_fields::put_leb_u32;
use std::alloc::Global;
use wasm_module::{
    Bounds, Code, Element, Export, FuncType, GlobalDef, Import, LocalRun, Segment, ValType,
};

/// A value type.
pub(crate) enum ValueEntry {}

impl Written for ValueEntry {
    type Value = ValType;

    ghost use Rattle.wasm_values.specs.declared.types.ValType.{ValType};
    ghost use Rattle.wasm_values.specs.Values.{SpellsValType};

    ghost Seen = { ValType };

    ghost seen = { λ value. value };

    ghost spells = { SpellsValType };

    fn put(_alloc: Global, out: &mut Vec<u8>, value: &ValType) -> Result<(), NoMemory> {
        put_val_type(out, *value)
    }
}

/// A function's type.
pub(crate) enum TypeEntry {}

impl Written for TypeEntry {
    type Value = FuncType;

    ghost use Rattle.wasm_values.specs.declared.types.FuncType.{FuncType};
    ghost use Rattle.wasm_values.specs.Values.{SpellsFuncType};

    ghost Seen = { FuncType };

    ghost seen = { λ value. value };

    ghost spells = { SpellsFuncType };

    fn put(alloc: Global, out: &mut Vec<u8>, value: &FuncType) -> Result<(), NoMemory> {
        out.push(0x60)?;
        put_list::<ValueEntry>(alloc, out, value.params.as_slice())?;
        put_results(out, value.result)
    }
}

/// An import.
pub(crate) enum ImportEntry {}

impl Written for ImportEntry {
    type Value = Import;

    ghost use Rattle.wasm_values.specs.declared.imports.Import.{Import};
    ghost use Rattle.wasm_values.specs.Values.{SpellsImport};

    ghost Seen = { Import };

    ghost seen = { λ value. value };

    ghost spells = { SpellsImport };

    fn put(_alloc: Global, out: &mut Vec<u8>, value: &Import) -> Result<(), NoMemory> {
        put_name(out, &value.module)?;
        put_name(out, &value.name)?;
        put_import_desc(out, &value.desc)
    }
}

/// A table's type.
pub(crate) enum TableEntry {}

impl Written for TableEntry {
    type Value = Bounds;

    ghost use Rattle.wasm_values.specs.declared.types.Bounds.{Bounds};
    ghost use Rattle.wasm_values.specs.Values.{SpellsTableType};

    ghost Seen = { Bounds };

    ghost seen = { λ value. value };

    ghost spells = { SpellsTableType };

    fn put(_alloc: Global, out: &mut Vec<u8>, value: &Bounds) -> Result<(), NoMemory> {
        put_table_type(out, value)
    }
}

/// A memory's type.
pub(crate) enum MemoryEntry {}

impl Written for MemoryEntry {
    type Value = Bounds;

    ghost use Rattle.wasm_values.specs.declared.types.Bounds.{Bounds};
    ghost use Rattle.wasm_values.specs.Values.{SpellsBounds};

    ghost Seen = { Bounds };

    ghost seen = { λ value. value };

    ghost spells = { SpellsBounds };

    fn put(_alloc: Global, out: &mut Vec<u8>, value: &Bounds) -> Result<(), NoMemory> {
        put_bounds(out, value)
    }
}

/// A global.
pub(crate) enum GlobalEntry {}

impl Written for GlobalEntry {
    type Value = GlobalDef;

    ghost use Rattle.wasm_values.specs.Syntax.{Ops};
    ghost use Rattle.wasm_module.specs.Entries as entries;
    ghost use Rattle.wasm_module.specs.Entries.{SpellsGlobal, global_view};
    ghost use Rattle.wasm_values.specs.Instructions.{SpellsExpression};

    ghost Seen = { entries.Global Ops };

    ghost seen = { global_view };

    ghost spells = { SpellsGlobal SpellsExpression };

    fn put(alloc: Global, out: &mut Vec<u8>, value: &GlobalDef) -> Result<(), NoMemory> {
        put_global_type(out, &value.kind)?;
        put_expression(alloc, out, &value.init)
    }
}

/// An export.
pub(crate) enum ExportEntry {}

impl Written for ExportEntry {
    type Value = Export;

    ghost use Rattle.wasm_values.specs.declared.exports.Export.{Export};
    ghost use Rattle.wasm_values.specs.Values.{SpellsExport};

    ghost Seen = { Export };

    ghost seen = { λ value. value };

    ghost spells = { SpellsExport };

    fn put(_alloc: Global, out: &mut Vec<u8>, value: &Export) -> Result<(), NoMemory> {
        put_name(out, &value.name)?;
        put_export_desc(out, &value.desc)
    }
}

/// An element segment.
pub(crate) enum ElementEntry {}

impl Written for ElementEntry {
    type Value = Element;

    ghost use Rattle.wasm_values.specs.Syntax.{Ops};
    ghost use Rattle.wasm_module.specs.Entries.{Elements, SpellsElement, element_view};
    ghost use Rattle.wasm_values.specs.Instructions.{SpellsExpression};

    ghost Seen = { Elements Ops };

    ghost seen = { element_view };

    ghost spells = { SpellsElement SpellsExpression };

    fn put(alloc: Global, out: &mut Vec<u8>, value: &Element) -> Result<(), NoMemory> {
        put_leb_u32(out, value.table)?;
        put_expression(alloc, out, &value.offset)?;
        put_list::<IndexEntry>(alloc, out, value.funcs.as_slice())
    }
}

/// A run of locals.
pub(crate) enum LocalEntry {}

impl Written for LocalEntry {
    type Value = LocalRun;

    ghost use Rattle.wasm_module.specs.declared.codes.LocalRun.{LocalRun};
    ghost use Rattle.wasm_module.specs.Entries.{SpellsLocalRun};

    ghost Seen = { LocalRun };

    ghost seen = { λ value. value };

    ghost spells = { SpellsLocalRun };

    fn put(_alloc: Global, out: &mut Vec<u8>, value: &LocalRun) -> Result<(), NoMemory> {
        put_leb_u32(out, value.count)?;
        put_val_type(out, value.value)
    }
}

/// Writes the locals and the body of a function.
fn put_function(alloc: Global, out: &mut Vec<u8>, code: &Code) -> Result<(), NoMemory>
    requires { IsSpelled (Then (SpellsList SpellsLocalRun) SpellsExpression) (code_view code.now) }
    ensures { OnOk result
        (Gains (Then (SpellsList SpellsLocalRun) SpellsExpression)
        (code_view code.now) out.old.items out.new.items) }
{
    put_list::<LocalEntry>(alloc, out, code.locals.as_slice())?;
    put_expression(alloc, out, &code.body)
}

/// The code of a function.
pub(crate) enum CodeEntry {}

impl Written for CodeEntry {
    type Value = Code;

    ghost use Rattle.wasm_values.specs.Syntax.{Ops};
    ghost use Rattle.wasm_module.specs.Entries.{Function, SpellsCode, code_view};
    ghost use Rattle.wasm_values.specs.Instructions.{SpellsExpression};

    ghost Seen = { Function Ops };

    ghost seen = { code_view };

    ghost spells = { SpellsCode SpellsExpression };

    fn put(alloc: Global, out: &mut Vec<u8>, value: &Code) -> Result<(), NoMemory> {
        let mut content = Vec::new(alloc);
        put_function(alloc, &mut content, value)?;
        put_bytes(out, &content)
    }
}

/// A data segment.
pub(crate) enum SegmentEntry {}

impl Written for SegmentEntry {
    type Value = Segment;

    ghost use Rattle.wasm_values.specs.Syntax.{Ops};
    ghost use Rattle.wasm_module.specs.Entries.{Data, SpellsSegment, segment_view};
    ghost use Rattle.wasm_values.specs.Instructions.{SpellsExpression};

    ghost Seen = { Data Ops };

    ghost seen = { segment_view };

    ghost spells = { SpellsSegment SpellsExpression };

    fn put(alloc: Global, out: &mut Vec<u8>, value: &Segment) -> Result<(), NoMemory> {
        put_leb_u32(out, value.memory)?;
        put_expression(alloc, out, &value.offset)?;
        put_bytes(out, value.bytes.as_slice())
    }
}
