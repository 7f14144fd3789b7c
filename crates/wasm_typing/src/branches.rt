// The types of branches.
ghost use Rattle.std.specs.Prelude.{IfOk, All};
ghost use Rattle.wasm_values.specs.Syntax.{br as op_br, br_if as op_br_if, br_table as op_br_table};
ghost use Rattle.wasm_values.specs.Syntax.{return as op_return};
ghost use Rattle.wasm_typing.specs.Typing.{Takes};
ghost use Rattle.wasm_typing.specs.inner.Scopes.{scope_view};
ghost use Rattle.wasm_typing.specs.inner.Stands.{Exactly, Checks};

use crate::labels::Labels;
use crate::operands::Operands;
use crate::scope::Scope;
use std::alloc::AllocError;
use wasm_module::ValType;

pub(crate) fn br(labels: &Labels, operands: &mut Operands, label: u32) -> bool
    ensures { (cx : _) → Checks cx labels.now (op_br label) operands.old operands.new result }
{
    let Some(kind) = labels.get(label) else {
        return false;
    };
    if !operands.pop_kind(kind) {
        return false;
    }
    operands.set_open();
    true
}

pub(crate) fn br_if(
    labels: &Labels,
    operands: &mut Operands,
    label: u32,
) -> Result<bool, AllocError>
    ensures { IfOk result (λ b. (cx : _)
        → Checks cx labels.now (op_br_if label) operands.old operands.new b) }
{
    let Some(kind) = labels.get(label) else {
        return Ok(false);
    };
    if !operands.pop_types(&[ValType::I32]) {
        return Ok(false);
    }
    if !operands.pop_kind(kind) {
        return Ok(false);
    }
    operands.push_kind(kind)?;
    Ok(true)
}

// Whether each of these labels takes this, in one step a label.
fn all_take(labels: &Labels, several: &[u32], kind: Option<ValType>) -> bool
    ensures { Exactly (All (Takes labels.now kind) several.now) result }
{
    let mut at = 0usize;
    while at < several.len() {
        let Some(other) = labels.get(several[at]) else {
            return false;
        };
        if other != kind {
            return false;
        }
        at += 1;
    }
    true
}

pub(crate) fn br_table(labels: &Labels, operands: &mut Operands, several: &[u32], last: u32) -> bool
    ensures { (cx : _)
        → Checks cx labels.now (op_br_table several.now last) operands.old operands.new result }
{
    let Some(kind) = labels.get(last) else {
        return false;
    };
    if !all_take(labels, several, kind) {
        return false;
    }
    if !operands.pop_types(&[ValType::I32]) {
        return false;
    }
    if !operands.pop_kind(kind) {
        return false;
    }
    operands.set_open();
    true
}

/// The return from the function.
pub(crate) fn leave_function(scope: &Scope, operands: &mut Operands) -> bool
    ensures { (labels : _) → Checks (scope_view scope.now) labels op_return operands.old operands.new result }
{
    if !operands.pop_kind(scope.kind) {
        return false;
    }
    operands.set_open();
    true
}
