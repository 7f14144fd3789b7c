// The function that is exported as `loop`.
ghost use Rattle.std.specs.Prelude.{◌≡◌, ℕ, map, slice_get, Some, MatchOption};
ghost use Rattle.wasm_typing.specs.inner.Stands.{Exactly};
ghost use Rattle.wasm_link.specs.Made.{kind_of, IsPlain, IsLoop};

use crate::entries::Entry;
use wasm_module::{Export, ExportDesc, FuncType};

/// Whether the function has no parameters and no result.
fn is_plain(types: &[FuncType], functions: &[Entry], func: u32) -> bool
    ensures { Exactly (IsPlain types.now (map kind_of functions.now) func) result }
{
    let Some(entry) = functions.get(func as usize) else {
        return false;
    };
    let Some(declared) = types.get(entry.kind() as usize) else {
        return false;
    };
    if !declared.params.as_slice().is_empty() {
        return false;
    }
    match declared.result {
        Some(_) => false,
        None => true,
    }
}

/// The function, where it is one of no parameters and no result that is exported as `loop`.
fn as_loop(types: &[FuncType], functions: &[Entry], export: &Export) -> Option<u32>
    ensures { MatchOption result ((func : _) → IsLoop types.now (map kind_of functions.now) export.now func
        → ⊥) (IsLoop types.now (map kind_of functions.now) export.now) }
{
    if export.name.as_slice() != b"loop".as_slice() {
        return None;
    }
    let ExportDesc::Func(func) = export.desc else {
        return None;
    };
    if is_plain(types, functions, func) {
        Some(func)
    } else {
        None
    }
}

/// The function of no parameters and no result that is exported as `loop`.
pub(crate) fn find_loop(types: &[FuncType], functions: &[Entry], exports: &[Export]) -> Option<u32>
    ensures { MatchOption result ((place func : ℕ) (entry : _) → slice_get exports.now place ≡ Some entry
        → IsLoop types.now (map kind_of functions.now) entry func → ⊥)
        (λ func. (place : ℕ) × (entry : _) × (slice_get exports.now place ≡ Some entry)
        × IsLoop types.now (map kind_of functions.now) entry func) }
{
    let mut at = 0usize;
    while at < exports.len() {
        if let Some(func) = as_loop(types, functions, &exports[at]) {
            return Some(func);
        }
        at += 1;
    }
    None
}
