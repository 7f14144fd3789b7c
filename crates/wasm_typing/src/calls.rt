// The types of calls.
ghost use Rattle.std.specs.Prelude.{◌≡◌, IfOk, option_copied};
ghost use Rattle.wasm_values.specs.Syntax.{call as op_call, call_indirect as op_call_indirect};
ghost use Rattle.wasm_typing.specs.Typing.{HasTable};
ghost use Rattle.wasm_typing.specs.Views.{context_view};
ghost use Rattle.wasm_typing.specs.inner.Scopes.{scope_view};
ghost use Rattle.wasm_typing.specs.inner.Tables.{Finds};
ghost use Rattle.wasm_typing.specs.inner.Stands.{Exactly, Checks};

use crate::context::Context;
use crate::operands::Operands;
use crate::scope::Scope;
use std::alloc::AllocError;
use wasm_module::{FuncType, ValType};

/// The type of a function.
pub fn type_of<'a>(context: &'a Context, func: u32) -> Option<&'a FuncType>
    ensures { Finds (context_view context.now) func (option_copied result) }
{
    let index = context.funcs.get(func as usize)?;
    context.types.get(*index as usize)
}

fn has_table(context: &Context) -> bool
    ensures { Exactly (HasTable (context_view context.now)) result }
{
    !context.tables.is_empty()
}

pub(crate) fn call(scope: &Scope, operands: &mut Operands, func: u32) -> Result<bool, AllocError>
    ensures { IfOk result (λ b. (labels : _)
        → Checks (scope_view scope.now) labels (op_call func) operands.old operands.new b) }
{
    let Some(kind) = type_of(scope.context, func) else {
        return Ok(false);
    };
    operands.apply(kind.params.as_slice(), kind.result)
}

pub(crate) fn call_indirect(
    scope: &Scope,
    operands: &mut Operands,
    index: u32,
) -> Result<bool, AllocError>
    ensures { IfOk result (λ b. (labels : _)
        → Checks (scope_view scope.now) labels (op_call_indirect index) operands.old operands.new b) }
{
    if !has_table(scope.context) {
        return Ok(false);
    }
    let Some(kind) = scope.context.types.get(index as usize) else {
        return Ok(false);
    };
    if !operands.pop_types(&[ValType::I32]) {
        return Ok(false);
    }
    operands.apply(kind.params.as_slice(), kind.result)
}
