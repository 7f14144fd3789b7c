// The forms of the entries that hold expressions, for any form of these.
ghost use Rattle.byte_fields.specs.Front.{Begins, BeginsNone, BeginsOnly};

use crate::codes::LocalRuns;
use crate::expressions::{Alone, Expression};
use crate::forms::LocalEntry;
use byte_fields::Cursor;
use std::alloc::Global;
use std::marker::PhantomData;
use wasm_values::{
    Blob, Both, Entries, Form, GlobalType, Index, Indices, Measured, ReadFault, blob, entries,
    global_type, indices,
};

/// The runs of a function's locals.
pub(crate) enum Runs {}

impl Form for Runs {
    type Value = LocalRuns;

    ghost use Rattle.std.specs.Prelude.{List};
    ghost use Rattle.wasm_module.specs.declared.codes.LocalRun.{LocalRun};
    ghost use Rattle.wasm_module.specs.Entries.{SpellsLocalRun};
    ghost use Rattle.wasm_values.specs.Spelling.{SpellsList};

    ghost Seen = { List LocalRun };

    ghost seen = { λ value. value };

    ghost spells = { SpellsList SpellsLocalRun };

    fn read(alloc: Global, cursor: &mut Cursor) -> Result<LocalRuns, ReadFault> {
        let list = entries::<LocalEntry>(alloc, cursor)?;
        let kept = Entries::of(list)?;
        Ok(kept)
    }
}

/// A list of indices.
pub(crate) enum IndexList {}

impl Form for IndexList {
    type Value = Indices;

    ghost use Rattle.std.specs.Prelude.{List, ℕ};
    ghost use Rattle.wasm_values.specs.Spelling.{SpellsList, SpellsU32};

    ghost Seen = { List ℕ };

    ghost seen = { λ value. value };

    ghost spells = { SpellsList SpellsU32 };

    fn read(alloc: Global, cursor: &mut Cursor) -> Result<Indices, ReadFault> {
        indices(alloc, cursor)
    }
}

/// A global's type.
pub(crate) enum GlobalKind {}

impl Form for GlobalKind {
    type Value = GlobalType;

    ghost use Rattle.wasm_values.specs.declared.types.GlobalType.{GlobalType};
    ghost use Rattle.wasm_values.specs.Values.{SpellsGlobalType};

    ghost Seen = { GlobalType };

    ghost seen = { λ value. value };

    ghost spells = { SpellsGlobalType };

    fn read(_alloc: Global, cursor: &mut Cursor) -> Result<GlobalType, ReadFault> {
        global_type(cursor)
    }
}

/// A list of bytes.
pub(crate) enum Content {}

impl Form for Content {
    type Value = Blob;

    ghost use Rattle.std.specs.Prelude.{ℕ, List};
    ghost use Rattle.wasm_values.specs.Spelling.{SpellsBytes};

    ghost Seen = { List ℕ };

    ghost seen = { λ value. value };

    ghost spells = { SpellsBytes };

    fn read(alloc: Global, cursor: &mut Cursor) -> Result<Blob, ReadFault> {
        blob(alloc, cursor)
    }
}

/// A global, with an expression of a form.
pub(crate) struct GlobalEntry<X> {
    _expression: PhantomData<X>,
}

impl<X: Expression> Form for GlobalEntry<X> {
    type Value = X::Global;

    ghost use Rattle.wasm_module.specs.Entries.{Global, SpellsGlobal};

    ghost Seen = { Global X.Seen };

    ghost seen = { X.global_seen };

    ghost spells = { SpellsGlobal X.spells };

    fn read(alloc: Global, cursor: &mut Cursor) -> Result<X::Global, ReadFault> {
        let (kind, init) = Both::<GlobalKind, Alone<X>>::read(alloc, cursor)?;
        Ok(X::global(kind, init))
    }
}

/// An element segment, with an expression of a form.
pub(crate) struct ElementEntry<X> {
    _expression: PhantomData<X>,
}

impl<X: Expression> Form for ElementEntry<X> {
    type Value = X::Element;

    ghost use Rattle.wasm_module.specs.Entries.{Elements, SpellsElement};

    ghost Seen = { Elements X.Seen };

    ghost seen = { X.element_seen };

    ghost spells = { SpellsElement X.spells };

    fn read(alloc: Global, cursor: &mut Cursor) -> Result<X::Element, ReadFault> {
        let (table, (offset, funcs)) = Both::<Index, Both<Alone<X>, IndexList>>::read(
            alloc, cursor,
        )?;
        Ok(X::element(table, offset, funcs))
    }
}

/// A code, with an expression of a form.
pub(crate) struct CodeEntry<X> {
    _expression: PhantomData<X>,
}

impl<X: Expression> Form for CodeEntry<X> {
    type Value = X::Code;

    ghost use Rattle.wasm_module.specs.Entries.{Function, SpellsCode};

    ghost Seen = { Function X.Seen };

    ghost seen = { X.code_seen };

    ghost spells = { SpellsCode X.spells };

    fn read(alloc: Global, cursor: &mut Cursor) -> Result<X::Code, ReadFault> {
        let (locals, body) = Measured::<Both<Runs, Alone<X>>>::read(alloc, cursor)?;
        Ok(X::code(locals, body))
    }
}

/// A data segment, with an expression of a form.
pub(crate) struct SegmentEntry<X> {
    _expression: PhantomData<X>,
}

impl<X: Expression> Form for SegmentEntry<X> {
    type Value = X::Segment;

    ghost use Rattle.wasm_module.specs.Entries.{Data, SpellsSegment};

    ghost Seen = { Data X.Seen };

    ghost seen = { X.segment_seen };

    ghost spells = { SpellsSegment X.spells };

    fn read(alloc: Global, cursor: &mut Cursor) -> Result<X::Segment, ReadFault> {
        let (memory, (offset, bytes)) = Both::<Index, Both<Alone<X>, Content>>::read(
            alloc, cursor,
        )?;
        Ok(X::segment(memory, offset, bytes))
    }
}
