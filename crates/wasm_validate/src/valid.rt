// Modules that have a typing.
ghost use Rattle.std.specs.Prelude.{◌≡◌, IfOk, IfErr, MatchResult};
ghost use Rattle.wasm_module.specs.Sections.{module_view};
ghost use Rattle.wasm_validate.specs.Floats.{HasNoFloat};
ghost use Rattle.wasm_validate.specs.Modules.{IsValid};
ghost use Rattle.wasm_typing.specs.Context.{module_context};
ghost use Rattle.wasm_typing.specs.Views.{context_view};
ghost use Rattle.wasm_typing.specs.inner.Stands.{Exactly};
ghost use Rattle.wasm_validate.specs.declared.valid.ValidFault.{ValidFault};

use crate::codes::are_functions;
use crate::floats::has_no_float;
use crate::names::names_differ;
use crate::rules::{are_declared, are_made};
use std::alloc::{AllocError, Global};
use std::marker::Model;
use wasm_module::Module;
use wasm_typing::Context;

/// A module without floats that has a typing. Contracts see the module.
pub struct Valid {
    whole: Module,
}

impl Drop for Valid {
    fn drop(self) {
        let Valid { whole: _ } = self;
    }
}

impl Model for Valid {
    ghost use Rattle.wasm_module.specs.declared.module.Module.{Module};
    ghost use Rattle.wasm_module.specs.Sections.{module_view};
    ghost use Rattle.wasm_validate.specs.Floats.{HasNoFloat};
    ghost use Rattle.wasm_validate.specs.Modules.{IsValid};
    ghost use Rattle.std.specs.Coded.{codes};
    ghost use Rattle.wasm_module.specs.contracts.module.Module as row;

    ghost Value = { Module };

    ghost coded = { Prim.hlevel (codes, row.the_row.coded) };

    ghost view = { λ valid. valid.whole };

    ghost invariant = { λ valid. HasNoFloat (module_view valid.whole) × IsValid (module_view valid.whole) };
}

impl Valid {
    /// The module.
    pub fn module(&self) -> &Module
        ensures same { result.now ≡ self.now }
        ensures no_float { HasNoFloat (module_view self.now) }
        ensures valid { IsValid (module_view self.now) }
    {
        &self.whole
    }
}

/// Why a module is not taken, with the module.
#[derive(Drop)]
pub enum ValidFault {
    /// A float stands in it.
    FloatRefused(Module),
    /// It has no float, and no typing.
    Invalid(Module),
    Memory(Module),
}

// Whether the module of this context is valid.
fn is_valid_in(alloc: Global, context: &Context, whole: &Module) -> Result<bool, AllocError>
    requires { context_view context.now ≡ module_context (module_view whole.now) }
    ensures { IfOk result (λ b. Exactly (IsValid (module_view whole.now)) b) }
{
    if !are_declared(context, whole) {
        return Ok(false);
    }
    let own = whole.globals.as_slice().len();
    let imported = context.imported(own);
    if !are_made(context, imported, whole) {
        return Ok(false);
    }
    if !names_differ(alloc, whole.exports.as_slice())? {
        return Ok(false);
    }
    are_functions(
        alloc,
        context,
        whole.funcs.as_slice(),
        whole.codes.as_slice(),
    )
}

fn is_valid(alloc: Global, whole: &Module) -> Result<bool, AllocError>
    ensures { IfOk result (λ b. Exactly (IsValid (module_view whole.now)) b) }
{
    let context = Context::of(alloc, whole)?;
    is_valid_in(alloc, &context, whole)
}

/// Whether a module is without floats and valid: WebAssembly Core 1.0, chapter 3. Floats are looked for
/// first, in the whole module.
pub fn validate(alloc: Global, whole: Module) -> Result<Valid, ValidFault>
    ensures same { IfOk result (λ valid. valid ≡ whole) }
    ensures no_float { IfOk result (λ valid. HasNoFloat (module_view whole)) }
    ensures valid { IfOk result (λ valid. IsValid (module_view whole)) }
    ensures float_refused { IfErr result (λ e. (m : _) → e ≡ ValidFault.FloatRefused m
        → (m ≡ whole) × (HasNoFloat (module_view whole) → ⊥)) }
    ensures invalid { IfErr result (λ e. (m : _) → e ≡ ValidFault.Invalid m
        → (m ≡ whole) × HasNoFloat (module_view whole) × (IsValid (module_view whole) → ⊥)) }
    ensures memory { IfErr result (λ e. (m : _) → e ≡ ValidFault.Memory m → m ≡ whole) }
    ensures complete { HasNoFloat (module_view whole) → IsValid (module_view whole)
        → IfErr result (λ e. e ≡ ValidFault.Memory whole) }
{
    if !has_no_float(&whole) {
        return Err(ValidFault::FloatRefused(whole));
    }
    match is_valid(alloc, &whole) {
        Ok(true) => Ok(Valid { whole }),
        Ok(false) => Err(ValidFault::Invalid(whole)),
        Err(_) => Err(ValidFault::Memory(whole)),
    }
}
