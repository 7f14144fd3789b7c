// The names of exports: WebAssembly Core 1.0, chapter 3.4.10.
ghost use Rattle.std.specs.Prelude.{IfOk};
ghost use Rattle.wasm_validate.specs.Modules.{NamesDiffer};
ghost use Rattle.wasm_typing.specs.inner.Stands.{Exactly};

use std::alloc::{AllocError, Global};
use std::collections::BTreeSet;
use wasm_module::Export;

/// Whether no two exports have one name, each name looked up among those before it.
pub(crate) fn names_differ(alloc: Global, exports: &[Export]) -> Result<bool, AllocError>
    ensures { IfOk result (λ b. Exactly (NamesDiffer exports.now) b) }
{
    let mut names = BTreeSet::new(alloc);
    let mut at = 0usize;
    while at < exports.len() {
        if !names.insert(exports[at].name.as_slice())? {
            return Ok(false);
        }
        at += 1;
    }
    Ok(true)
}
