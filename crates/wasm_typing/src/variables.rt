// The types of the instructions on locals and globals.
ghost use Rattle.std.specs.Prelude.{◌≡◌, IfOk, slice_get};
ghost use Rattle.wasm_values.specs.Syntax.{local_get as op_local_get, local_set as op_local_set};
ghost use Rattle.wasm_values.specs.Syntax.{local_tee as op_local_tee, global_get as op_global_get};
ghost use Rattle.wasm_values.specs.Syntax.{global_set as op_global_set};
ghost use Rattle.wasm_typing.specs.Views.{context_view};
ghost use Rattle.wasm_typing.specs.inner.Scopes.{scope_view};
ghost use Rattle.wasm_typing.specs.inner.Stands.{Checks};

use crate::context::Context;
use crate::operands::Operands;
use crate::scope::Scope;
use std::alloc::AllocError;
use wasm_module::GlobalType;

pub(crate) fn local_get(
    scope: &Scope,
    operands: &mut Operands,
    index: u32,
) -> Result<bool, AllocError>
    ensures { IfOk result (λ b. (labels : _)
        → Checks (scope_view scope.now) labels (op_local_get index) operands.old operands.new b) }
{
    let Some(value) = scope.locals.get(index) else {
        return Ok(false);
    };
    operands.apply(&[], Some(value))
}

pub(crate) fn local_set(
    scope: &Scope,
    operands: &mut Operands,
    index: u32,
) -> Result<bool, AllocError>
    ensures { IfOk result (λ b. (labels : _)
        → Checks (scope_view scope.now) labels (op_local_set index) operands.old operands.new b) }
{
    let Some(value) = scope.locals.get(index) else {
        return Ok(false);
    };
    operands.apply(&[value], None)
}

pub(crate) fn local_tee(
    scope: &Scope,
    operands: &mut Operands,
    index: u32,
) -> Result<bool, AllocError>
    ensures { IfOk result (λ b. (labels : _)
        → Checks (scope_view scope.now) labels (op_local_tee index) operands.old operands.new b) }
{
    let Some(value) = scope.locals.get(index) else {
        return Ok(false);
    };
    operands.apply(&[value], Some(value))
}

// The type of a global.
fn global(context: &Context, index: u32) -> Option<GlobalType>
    ensures { result ≡ slice_get (context_view context.now).globals index }
{
    context.globals.get(index as usize).copied()
}

pub(crate) fn global_get(
    scope: &Scope,
    operands: &mut Operands,
    index: u32,
) -> Result<bool, AllocError>
    ensures { IfOk result (λ b. (labels : _)
        → Checks (scope_view scope.now) labels (op_global_get index) operands.old operands.new b) }
{
    let Some(found) = global(scope.context, index) else {
        return Ok(false);
    };
    operands.apply(&[], Some(found.value))
}

pub(crate) fn global_set(
    scope: &Scope,
    operands: &mut Operands,
    index: u32,
) -> Result<bool, AllocError>
    ensures { IfOk result (λ b. (labels : _)
        → Checks (scope_view scope.now) labels (op_global_set index) operands.old operands.new b) }
{
    let Some(found) = global(scope.context, index) else {
        return Ok(false);
    };
    if !found.mutable {
        return Ok(false);
    }
    operands.apply(&[found.value], None)
}
