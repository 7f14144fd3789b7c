// The functions of a module, one by one.
ghost use Rattle.std.specs.Prelude.{IfOk, length};
ghost use Rattle.wasm_validate.specs.inner.Groups.{AreFunctions};
ghost use Rattle.wasm_typing.specs.Views.{context_view};
ghost use Rattle.wasm_typing.specs.inner.Stands.{Exactly};

use std::alloc::{AllocError, Global};
use wasm_module::Code;
use wasm_typing::{Context, Workspace, is_function};

// Whether each code is that of a function of the type beside it, in this room.
fn are_functions_in(
    work: &mut Workspace,
    context: &Context,
    kinds: &[u32],
    codes: &[Code],
) -> Result<bool, AllocError>
    ensures { IfOk result
        (λ b. Exactly (AreFunctions (context_view context.now) kinds.now codes.now (length kinds.now)) b) }
{
    let mut at = 0usize;
    let count = kinds.len().min(codes.len());
    while at < count {
        if !is_function(work, context, kinds[at], &codes[at])? {
            return Ok(false);
        }
        at += 1;
    }
    Ok(true)
}

/// Whether each code is that of a function of the type beside it.
pub(crate) fn are_functions(
    alloc: Global,
    context: &Context,
    kinds: &[u32],
    codes: &[Code],
) -> Result<bool, AllocError>
    ensures { IfOk result
        (λ b. Exactly (AreFunctions (context_view context.now) kinds.now codes.now (length kinds.now)) b) }
{
    let mut work = Workspace::new(alloc);
    are_functions_in(&mut work, context, kinds, codes)
}
