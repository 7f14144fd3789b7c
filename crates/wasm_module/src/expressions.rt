// The forms of expressions, and what is kept of the entries that hold them.
ghost use Rattle.std.specs.Prelude.{◌≡◌, List, ℕ, IfOk, IfErr};
ghost use Rattle.byte_fields.specs.Front.{Begins, BeginsNone, BeginsOnly};
ghost use Rattle.wasm_module.specs.Entries.{Data as DataView, Elements as ElementView};
ghost use Rattle.wasm_module.specs.Entries.{Function as FunctionView, Global as GlobalView};

use crate::codes::{Code, LocalRuns};
use crate::elements::Element;
use crate::globals::GlobalDef;
use crate::segments::Segment;
use byte_fields::Cursor;
use std::alloc::Global;
use std::marker::PhantomData;
use wasm_values::{Blob, Form, GlobalType, Indices, Instrs, ReadFault, inner, skim_expression};

// The expression itself, and 200 blocks in it.
const MAX_DEPTH: u32 = 201;

/// A form of expressions, and what is kept of the entries that hold them.
pub(crate) trait Expression {
    type Value: Drop;

    type Global: Drop;

    type Element: Drop;

    type Code: Drop;

    type Segment: Drop;

    ghost Seen: { Type 0 };

    ghost seen: { Self.Value → Seen };

    ghost spells: { List ℕ → Seen → Type 0 };

    ghost global_seen: { Self.Global → GlobalView Seen };

    ghost element_seen: { Self.Element → ElementView Seen };

    ghost code_seen: { Self.Code → FunctionView Seen };

    ghost segment_seen: { Self.Segment → DataView Seen };

    /// Reads the expression at the front.
    fn read(alloc: Global, cursor: &mut Cursor) -> Result<Self::Value, ReadFault>
        ensures found { IfOk result (λ value. Begins spells cursor.old.0 (seen value) cursor.new.0) }
        ensures only { IfOk result (λ value. BeginsOnly spells cursor.old.0 (seen value) cursor.new.0) }
        ensures malformed { IfErr result (λ e. e ≡ ReadFault.Malformed → BeginsNone spells cursor.old.0) };

    fn global(kind: GlobalType, init: Self::Value) -> Self::Global
        ensures { global_seen result ≡ (kind, seen init) };

    fn element(table: u32, offset: Self::Value, funcs: Indices) -> Self::Element
        ensures { element_seen result ≡ (table, (seen offset, funcs)) };

    fn code(locals: LocalRuns, body: Self::Value) -> Self::Code
        ensures { code_seen result ≡ (locals, seen body) };

    fn segment(memory: u32, offset: Self::Value, bytes: Blob) -> Self::Segment
        ensures { segment_seen result ≡ (memory, (seen offset, bytes)) };
}

/// An expression alone.
pub(crate) struct Alone<X> {
    _expression: PhantomData<X>,
}

impl<X: Expression> Form for Alone<X> {
    type Value = X::Value;

    ghost Seen = { X.Seen };

    ghost seen = { X.seen };

    ghost spells = { X.spells };

    fn read(alloc: Global, cursor: &mut Cursor) -> Result<X::Value, ReadFault> {
        X::read(alloc, cursor)
    }
}

/// An expression within the limit of nesting, which is kept.
pub(crate) enum Limited {}

impl Expression for Limited {
    type Value = Instrs;

    type Global = GlobalDef;

    type Element = Element;

    type Code = Code;

    type Segment = Segment;

    ghost use Rattle.wasm_module.specs.Entries.{code_view, element_view, global_view, segment_view};
    ghost use Rattle.wasm_values.specs.inner.Nested.{SpellsLimited};
    ghost use Rattle.wasm_values.specs.Syntax.{Ops};
    ghost use Rattle.wasm_values.specs.View.{instrs_view};

    ghost Seen = { Ops };

    ghost seen = { instrs_view };

    ghost spells = { SpellsLimited };

    ghost global_seen = { global_view };

    ghost element_seen = { element_view };

    ghost code_seen = { code_view };

    ghost segment_seen = { segment_view };

    fn read(alloc: Global, cursor: &mut Cursor) -> Result<Instrs, ReadFault> {
        inner(alloc, cursor, MAX_DEPTH)
    }

    fn global(kind: GlobalType, init: Instrs) -> GlobalDef {
        GlobalDef { kind, init }
    }

    fn element(table: u32, offset: Instrs, funcs: Indices) -> Element {
        Element {
            table,
            offset,
            funcs,
        }
    }

    fn code(locals: LocalRuns, body: Instrs) -> Code {
        Code { locals, body }
    }

    fn segment(memory: u32, offset: Instrs, bytes: Blob) -> Segment {
        Segment {
            memory,
            offset,
            bytes,
        }
    }
}

/// An expression however deep, which is passed over.
pub(crate) enum Skimmed {}

impl Expression for Skimmed {
    type Value = ();

    type Global = GlobalType;

    type Element = (u32, Indices);

    type Code = LocalRuns;

    type Segment = (u32, Blob);

    ghost use Rattle.wasm_values.specs.inner.Skimmed.{SpellsSome};

    ghost Seen = { Unit {0} };

    ghost seen = { λ value. value };

    ghost spells = { SpellsSome };

    ghost global_seen = { λ kind. (kind, tt) };

    ghost element_seen = { λ value. (value.0, (tt, value.1)) };

    ghost code_seen = { λ locals. (locals, tt) };

    ghost segment_seen = { λ value. (value.0, (tt, value.1)) };

    fn read(alloc: Global, cursor: &mut Cursor) -> Result<(), ReadFault> {
        skim_expression(alloc, cursor)
    }

    fn global(kind: GlobalType, _init: ()) -> GlobalType {
        kind
    }

    fn element(table: u32, _offset: (), funcs: Indices) -> (u32, Indices) {
        (table, funcs)
    }

    fn code(locals: LocalRuns, _body: ()) -> LocalRuns {
        locals
    }

    fn segment(memory: u32, _offset: (), bytes: Blob) -> (u32, Blob) {
        (memory, bytes)
    }
}
