// The functions that a module defines.
ghost use Rattle.std.specs.Prelude.{◌≡◌, ◌≤◌, ◌^◌, ◌<◌, length, map, sum_by, IfOk};
ghost use Rattle.wasm_module.specs.Limits.{WithinFunctions, WithinLocals, most_locals};
ghost use Rattle.wasm_module.specs.Sections.{module_view};
ghost use Rattle.wasm_typing.specs.Context.{locals_of};
ghost use Rattle.wasm_validate.specs.Modules.{IsValid};
ghost use Rattle.wasm_steps.specs.Threads.{arity};
ghost use Rattle.wasm_link.specs.Made.{kind_of, AreOwn};

use crate::entries::Entry;
use std::alloc::{AllocError, Global};
use wasm_module::{LocalRun, Module, ValType};

/// How many locals the runs say.
fn count_of(runs: &[LocalRun]) -> u32
    requires { sum_by (λ run. run.count) runs.now ≤ most_locals }
    ensures { result ≡ length (locals_of runs.now) }
{
    let mut count = 0u32;
    let mut at = 0usize;
    while at < runs.len() {
        count += runs[at].count;
        at += 1;
    }
    count
}

/// How many results there are.
fn results_of(result_type: Option<ValType>) -> u32
    ensures { result ≡ arity result_type }
{
    match result_type {
        Some(_) => 1,
        None => 0,
    }
}

/// The entry of each function that the module defines.
pub(crate) fn own_functions(alloc: Global, whole: &Module) -> Result<Vec<Entry>, AllocError>
    requires valid { IsValid (module_view whole.now) }
    requires functions { WithinFunctions (module_view whole.now) }
    requires locals { WithinLocals (module_view whole.now) }
    ensures own { IfOk result (λ functions. AreOwn (module_view whole.now) functions.items) }
    ensures kinds { IfOk result (λ functions. map kind_of functions.items ≡ whole.now.funcs) }
{
    let types = whole.types.as_slice();
    let kinds = whole.funcs.as_slice();
    let codes = whole.codes.as_slice();
    let mut functions = Vec::new(alloc);
    let mut at = 0usize;
    while at < kinds.len() {
        let kind = kinds[at];
        let declared = &types[kind as usize];
        functions.push(Entry::Defined {
            kind,
            place: at as u32,
            params: declared.params.as_slice().len() as u32,
            more: count_of(codes[at].locals.as_slice()),
            results: results_of(declared.result),
        })?;
        at += 1;
    }
    Ok(functions)
}
