// The judgement of uploads.
ghost use Rattle.std.specs.Prelude.{◌≡◌, ◌≢◌, ◌⊎◌, ℕ, List, IfOk, IfErr};
ghost use Rattle.wasm_module.specs.Limits.{IsWithin, WithinBytes};
ghost use Rattle.wasm_module.specs.Sections.{Spells, module_view};
ghost use Rattle.wasm_validate.specs.Floats.{HasNoFloat};
ghost use Rattle.wasm_validate.specs.Modules.{IsValid};
ghost use Rattle.wasm_link.specs.Kept.{link_view};
ghost use Rattle.wasm_link.specs.Linking.{Link};
ghost use Rattle.player_run.specs.Admission.{Accepts, IsRefused};

use host_calls::host_sigs;
pub use intent_book::Refusal;
use std::alloc::Global;
use wasm_link::{LinkFault, Linked, link};
use wasm_module::{DecodeFault, Module, decode};
use wasm_validate::{Valid, ValidFault, validate};

/// The module of these bytes, linked to the host calls, or the first reason why it is refused.
///
/// `UnknownPlayer` and `WrongToken` are never the answer. `Memory` says nothing of the bytes.
pub fn admit(alloc: Global, bytes: &[u8]) -> Result<Linked, Refusal>
    ensures accepted { IfOk result (λ linked. Accepts bytes.now (link_view linked)) }
    ensures refused { IfErr result (λ why. why ≢ Refusal.Memory → IsRefused bytes.now why) }
    ensures complete { IfErr result (λ e. e ≢ Refusal.Memory → (link : Link) → Accepts bytes.now link → ⊥) }
{
    match decode(alloc, bytes) {
        Ok(found) => admit_module(alloc, found),
        Err(DecodeFault::Malformed) => Err(Refusal::Malformed),
        Err(DecodeFault::TooLarge(_)) => Err(Refusal::TooLarge),
        Err(DecodeFault::Memory) => Err(Refusal::Memory),
    }
}

// Judges a module within the limits, whatever bytes spell it.
fn admit_module(alloc: Global, found: Module) -> Result<Linked, Refusal>
    requires spelled { (bytes : List ℕ) × WithinBytes bytes × Spells bytes (module_view found) }
    requires within { IsWithin (module_view found) }
    ensures accepted { (bytes : List ℕ) → WithinBytes bytes → Spells bytes (module_view found)
        → IfOk result (λ linked. Accepts bytes (link_view linked)) }
    ensures refused { (bytes : List ℕ) → WithinBytes bytes → Spells bytes (module_view found)
        → IfErr result (λ why. why ≢ Refusal.Memory → IsRefused bytes why) }
{
    match validate(alloc, found) {
        Ok(valid) => admit_valid(alloc, valid),
        Err(fault) => Err(refusal_of(fault)),
    }
}

// Why a module is refused that has a float, or is not valid.
fn refusal_of(fault: ValidFault) -> Refusal
    ensures float { result ≡ Refusal.FloatRefused → (m : _) × (fault ≡ ValidFault.FloatRefused m) }
    ensures invalid { result ≡ Refusal.Invalid → (m : _) × (fault ≡ ValidFault.Invalid m) }
    ensures one { (result ≡ Refusal.FloatRefused) ⊎ (result ≡ Refusal.Invalid) ⊎ (result ≡ Refusal.Memory) }
{
    match fault {
        ValidFault::FloatRefused(_) => Refusal::FloatRefused,
        ValidFault::Invalid(_) => Refusal::Invalid,
        ValidFault::Memory(_) => Refusal::Memory,
    }
}

// Links a valid module to the host calls.
fn admit_valid(alloc: Global, valid: Valid) -> Result<Linked, Refusal>
    requires spelled { (bytes : List ℕ) × WithinBytes bytes × Spells bytes (module_view valid) }
    requires within { IsWithin (module_view valid) }
    requires no_float { HasNoFloat (module_view valid) }
    requires valid { IsValid (module_view valid) }
    ensures accepted { (bytes : List ℕ) → WithinBytes bytes → Spells bytes (module_view valid)
        → IfOk result (λ linked. Accepts bytes (link_view linked)) }
    ensures refused { (bytes : List ℕ) → WithinBytes bytes → Spells bytes (module_view valid)
        → IfErr result (λ why. why ≢ Refusal.Memory → IsRefused bytes why) }
{
    match link(alloc, valid, host_sigs()) {
        Ok(linked) => Ok(linked),
        Err(LinkFault::UnknownImport(_)) => Err(Refusal::UnknownImport),
        Err(LinkFault::ImportKind(_)) => Err(Refusal::ImportKind),
        Err(LinkFault::NoLoop) => Err(Refusal::NoLoop),
        Err(LinkFault::Segment(_)) => Err(Refusal::Segment),
        Err(LinkFault::Memory) => Err(Refusal::Memory),
    }
}
