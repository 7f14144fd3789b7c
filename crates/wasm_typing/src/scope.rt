// What stands around the instructions of a function.
ghost use Rattle.std.specs.Prelude.{◌≡◌};
ghost use Rattle.wasm_typing.specs.Context.{function_context};
ghost use Rattle.wasm_typing.specs.inner.Runs.{AreEnds};
ghost use Rattle.wasm_typing.specs.inner.Scopes.{scope_view};
ghost use Rattle.wasm_typing.specs.Views.{context_view};

use crate::context::Context;
use crate::locals::Locals;
use wasm_module::{FuncType, LocalRun, ValType};

/// The module, and the locals and the result of the function.
#[derive(Drop)]
pub(crate) struct Scope<'a> {
    pub context: &'a Context<'a>,
    pub locals: Locals<'a>,
    pub kind: Option<ValType>,
}

impl<'a> Scope<'a> {
    /// Inside of a function of this type with these runs of locals, which have these ends.
    pub fn inside(
        context: &'a Context<'a>,
        kind: &'a FuncType,
        runs: &'a [LocalRun],
        ends: &'a [u64],
    ) -> Scope<'a>
        requires ends { AreEnds runs.now ends.now }
        ensures { scope_view result
            ≡ function_context (context_view context.entry.now) kind.entry.now runs.entry.now }
    {
        Scope {
            context,
            locals: Locals::new(kind.params.as_slice(), runs, ends),
            kind: kind.result,
        }
    }
}
