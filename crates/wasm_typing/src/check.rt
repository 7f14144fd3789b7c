// Whether instructions are typed.
ghost use Rattle.std.specs.Prelude.{◌≡◌, [], ◌∷◌, IfOk, IsTrue};
ghost use Rattle.wasm_values.specs.View.{instr_view, instrs_view};
ghost use Rattle.wasm_typing.specs.Typing.{types_of, Typed};
ghost use Rattle.wasm_typing.specs.inner.Scopes.{scope_view};
ghost use Rattle.wasm_typing.specs.inner.Stands.{Checks, ChecksAll, Nested};

use crate::branches::{br, br_if, br_table, leave_function};
use crate::calls::{call, call_indirect};
use crate::labels::Labels;
use crate::memories::{load, memory_grow, memory_size, store};
use crate::numbers::numeric;
use crate::operands::Operands;
use crate::scope::Scope;
use crate::variables::{global_get, global_set, local_get, local_set, local_tee};
use std::alloc::AllocError;
use wasm_module::{Instr, Instrs, ValType};

#[cycle(check)]
fn list(
    scope: &Scope,
    labels: &mut Labels,
    operands: &mut Operands,
    instrs: &Instrs,
) -> Result<bool, AllocError>
    ensures typed { IfOk result
        (λ b. ChecksAll (scope_view scope.now) labels.old
        (instrs_view instrs.now) operands.old operands.new b) }
    ensures labels { IfOk result (λ b. IsTrue b → labels.new ≡ labels.old) }
{
    let items = instrs.as_slice();
    let mut at = 0usize;
    while at < items.len() {
        if !instr(scope, labels, operands, &items[at])? {
            return Ok(false);
        }
        at += 1;
    }
    Ok(true)
}

#[cycle(check)]
fn instr(
    scope: &Scope,
    labels: &mut Labels,
    operands: &mut Operands,
    instr: &Instr,
) -> Result<bool, AllocError>
    ensures typed { IfOk result
        (λ b. Checks (scope_view scope.now) labels.old (instr_view instr.now) operands.old operands.new b) }
    ensures labels { IfOk result (λ b. IsTrue b → labels.new ≡ labels.old) }
{
    match instr {
        Instr::Unreachable => {
            operands.set_open();
            Ok(true)
        }
        Instr::Nop => Ok(true),
        Instr::Block(kind, body) => {
            if !nested(scope, labels, operands, *kind, *kind, body)? {
                return Ok(false);
            }
            operands.push_kind(*kind)?;
            Ok(true)
        }
        Instr::Loop(kind, body) => {
            if !nested(scope, labels, operands, None, *kind, body)? {
                return Ok(false);
            }
            operands.push_kind(*kind)?;
            Ok(true)
        }
        Instr::If(kind, first, second) => {
            if !operands.pop_types(&[ValType::I32]) {
                return Ok(false);
            }
            if !nested(scope, labels, operands, *kind, *kind, first)? {
                return Ok(false);
            }
            if !nested(scope, labels, operands, *kind, *kind, second)? {
                return Ok(false);
            }
            operands.push_kind(*kind)?;
            Ok(true)
        }
        Instr::Br(label) => Ok(br(labels, operands, *label)),
        Instr::BrIf(label) => br_if(labels, operands, *label),
        Instr::BrTable(several, last) => {
            Ok(br_table(labels, operands, several.as_slice(), *last))
        }
        Instr::Return => Ok(leave_function(scope, operands)),
        Instr::Call(func) => call(scope, operands, *func),
        Instr::CallIndirect(index) => call_indirect(scope, operands, *index),
        Instr::Drop => Ok(operands.drop_one()),
        Instr::Select => operands.select(),
        Instr::LocalGet(index) => local_get(scope, operands, *index),
        Instr::LocalSet(index) => local_set(scope, operands, *index),
        Instr::LocalTee(index) => local_tee(scope, operands, *index),
        Instr::GlobalGet(index) => global_get(scope, operands, *index),
        Instr::GlobalSet(index) => global_set(scope, operands, *index),
        Instr::Load { op, align, .. } => load(scope, operands, *op, *align),
        Instr::Store { op, align, .. } => store(scope, operands, *op, *align),
        Instr::MemorySize => memory_size(scope, operands),
        Instr::MemoryGrow => memory_grow(scope, operands),
        Instr::I32Const(_) => operands.apply(&[], Some(ValType::I32)),
        Instr::I64Const(_) => operands.apply(&[], Some(ValType::I64)),
        Instr::Numeric(op) => numeric(operands, *op),
        Instr::FloatMemory { .. } => Ok(false),
        Instr::FloatConst(_) => Ok(false),
        Instr::FloatPlain(_) => Ok(false),
    }
}

/// A body, with what the label of its block takes and what it results in.
#[cycle(check)]
pub(crate) fn nested(
    scope: &Scope,
    labels: &mut Labels,
    operands: &mut Operands,
    label: Option<ValType>,
    kind: Option<ValType>,
    body: &Instrs,
) -> Result<bool, AllocError>
    ensures { IfOk result
        (λ b. Nested (Typed (scope_view scope.now) (label ∷ labels.old) (instrs_view body.now) []
        (types_of kind)) labels.old labels.new operands.old operands.new b) }
{
    labels.push(label)?;
    let outer = operands.enter();
    if !list(scope, labels, operands, body)? {
        return Ok(false);
    }
    if !operands.ends(kind) {
        return Ok(false);
    }
    operands.leave(outer);
    labels.pop();
    Ok(true)
}
