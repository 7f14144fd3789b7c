// The decoder and the writer of modules together: the round trip as a law, and modules of another
// assembler as tests.
#![tactic(auto)]

ghost use Rattle.std.specs.Prelude.{◌≡◌, ℕ, List, IfOk, IfErr};
ghost use Rattle.wasm_module.specs.Limits.{IsWithin, WithinBytes};
ghost use Rattle.wasm_module.specs.Sections.{Spells, module_view};

use std::alloc::Global;
use wasm_encode::encode;
use wasm_module::{DecodeFault, Module, decode};

#[cfg(test)]
mod opcode_tests;
#[cfg(test)]
mod seen;
#[cfg(test)]
mod whole_tests;

/// Writes a module and reads it back. What is written for a module within the limits is read as that
/// module; nothing but memory can be wanting.
pub fn written_and_read(alloc: Global, whole: &Module) -> Result<Module, DecodeFault>
    requires spelled { (text : List ℕ) × Spells text (module_view whole.now) × WithinBytes text }
    requires within { IsWithin (module_view whole.now) }
    ensures same { IfOk result (λ found. module_view found ≡ module_view whole.now) }
    ensures memory { IfErr result (λ e. e ≡ DecodeFault.Memory) }
{
    let Ok(bytes) = encode(alloc, whole) else {
        return Err(DecodeFault::Memory);
    };
    let found = decode(alloc, &bytes)?;
    Ok(found)
}
