// The limits of what is taken as a module.
ghost use Rattle.std.specs.Prelude.{◌≡◌, ◌↔◌, ◌+◌, ◌≤◌, ◌^◌, ◌<◌, ℕ, sum_by, slice_get, Some, All, IsTrue};
ghost use Rattle.std.specs.Prelude.{MatchOption};
ghost use Rattle.wasm_module.specs.Entries.{code_view};
ghost use Rattle.wasm_module.specs.Sections.{module_view};
ghost use Rattle.wasm_module.specs.Limits.{IsWithin, PassesFirst, WithinLocals, WithinNesting};
ghost use Rattle.wasm_module.specs.Limits.{locals_of, most_locals, params_in};

use crate::codes::{Code, LocalRun};
use crate::module::{Limit, Module};
use wasm_values::{Bounds, FuncTypes};

const MOST_FUNCTIONS: u64 = 10_000;

const MOST_LOCALS: u64 = 65_536;

const MOST_PAGES: u32 = 256;

const MOST_TABLE_ENTRIES: u32 = 65_536;

/// The first limit that a module passes which nests within its limit.
pub(crate) fn passed_limit(whole: &Module) -> Option<Limit>
    requires { WithinNesting (module_view whole.now) }
    ensures { MatchOption result (IsWithin (module_view whole.now))
        (λ limit. PassesFirst limit (module_view whole.now)) }
{
    if whole.codes.len() > MOST_FUNCTIONS {
        return Some(Limit::Functions);
    }
    if !locals_within(whole) {
        return Some(Limit::Locals);
    }
    if !least_within(whole.memories.as_slice(), MOST_PAGES) {
        return Some(Limit::Pages);
    }
    if !least_within(whole.tables.as_slice(), MOST_TABLE_ENTRIES) {
        return Some(Limit::TableEntries);
    }
    None
}

// Whether each least size is at most this.
fn least_within(list: &[Bounds], most: u32) -> bool
    ensures { IsTrue result ↔ All (λ bounds. bounds.min ≤ most) list.now }
{
    list.iter().all(|bounds| bounds.min <= most)
}

// Whether each function has few enough locals.
fn locals_within(whole: &Module) -> bool
    ensures { IsTrue result ↔ WithinLocals (module_view whole.now) }
{
    'each: for (at, code) in whole.codes.as_slice().iter().enumerate() {
        if !function_within(whole, at, code) {
            return false;
        }
    }
    true
}

// Whether a function has few enough locals, whose code stands at this place.
fn function_within(whole: &Module, at: usize, code: &Code) -> bool
    ensures { IsTrue result
        ↔ ((index : ℕ) → slice_get whole.now.funcs at ≡ Some index
        → locals_of whole.now.types index (code_view code.now) ≤ most_locals) }
{
    match whole.funcs.nth(at as u64) {
        Some(index) => runs_within(params(&whole.types, *index), code.locals.as_slice()),
        None => true,
    }
}

// The number of parameters of a type, 0 where there is no such type.
fn params(types: &FuncTypes, index: u32) -> u64
    ensures { result ≡ params_in (slice_get types.now index) }
{
    match types.nth(index as u64) {
        Some(kind) => kind.params.len(),
        None => 0,
    }
}

// Whether so many parameters and the locals in these runs are few enough.
fn runs_within(params: u64, runs: &[LocalRun]) -> bool
    ensures { IsTrue result ↔ (params + sum_by (λ run. run.count) runs.now ≤ most_locals) }
{
    if params > MOST_LOCALS {
        return false;
    }
    let mut total = params;
    'each: for run in runs {
        total += run.count as u64;
        if total > MOST_LOCALS {
            return false;
        }
    }
    true
}
