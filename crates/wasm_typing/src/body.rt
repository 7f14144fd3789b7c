// The functions of a module: WebAssembly Core 1.0, chapter 3.4.1.
ghost use Rattle.std.specs.Prelude.{IfOk};
ghost use Rattle.wasm_module.specs.Entries.{code_view};
ghost use Rattle.wasm_typing.specs.Functions.{IsFunction};
ghost use Rattle.wasm_typing.specs.Views.{context_view};
ghost use Rattle.wasm_typing.specs.inner.Stands.{Exactly};

use crate::check::nested;
use crate::context::Context;
use crate::locals::write_ends;
use crate::scope::Scope;
use crate::workspace::Workspace;
use std::alloc::AllocError;
use wasm_module::Code;

/// Whether the code is that of a function of the type of this index.
pub fn is_function(
    work: &mut Workspace,
    context: &Context,
    kind: u32,
    code: &Code,
) -> Result<bool, AllocError>
    ensures { IfOk result (λ b. Exactly (IsFunction (context_view context.now) kind (code_view code.now)) b) }
{
    let Some(kind) = context.types.get(kind as usize) else {
        return Ok(false);
    };
    let runs = code.locals.as_slice();
    work.labels.clear();
    work.operands.clear();
    write_ends(&mut work.ends, runs)?;
    let scope = Scope::inside(context, kind, runs, &work.ends);
    nested(
        &scope,
        &mut work.labels,
        &mut work.operands,
        kind.result,
        kind.result,
        &code.body,
    )
}
