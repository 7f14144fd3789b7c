// The calls of the host that a module imports.
ghost use Rattle.std.specs.Prelude.{◌≡◌, ◌<◌, ◌^◌, length, map, IfOk, IfErr, MatchOption};
ghost use Rattle.std.specs.List.{filter_map};
ghost use Rattle.wasm_typing.specs.Context.{imported_func};
ghost use Rattle.wasm_typing.specs.inner.Stands.{Exactly};
ghost use Rattle.wasm_link.specs.Linking.{IsKnown};
ghost use Rattle.wasm_link.specs.Made.{kind_of, IsNamed, HasNames, AreNamed, HasKind, AreImported};
ghost use Rattle.wasm_link.specs.Made.{IsUnknown, IsOtherKind, EachAt, IsNumberOf, HaveMost};

use crate::entries::Entry;
use crate::fault::LinkFault;
use std::alloc::Global;
use wasm_module::{FuncType, HostSig, Import, ImportDesc, ValType};

/// Whether these are the bytes of a text.
fn is_text(text: &str, bytes: &[u8]) -> bool
    ensures { Exactly (bytes.now ≡ text.now) result }
{
    text.as_bytes() == bytes
}

/// Whether a call has the module and the name of an import.
fn has_names(sig: &HostSig, entry: &Import) -> bool
    ensures { Exactly (HasNames sig.now entry.now) result }
{
    is_text(sig.module, entry.module.as_slice()) && is_text(sig.name, entry.name.as_slice())
}

/// The number of the call that an import names, the first of its module and name.
fn call_of(sigs: &[HostSig], entry: &Import) -> Option<u32>
    requires { length sigs.now < 2 ^ 32 }
    ensures { MatchOption result (IsKnown sigs.now entry.now → ⊥) (IsNamed sigs.now entry.now) }
{
    let mut at = 0usize;
    while at < sigs.len() {
        if has_names(&sigs[at], entry) {
            return Some(at as u32);
        }
        at += 1;
    }
    None
}

/// The number of its call for each import.
pub(crate) fn call_numbers(
    alloc: Global,
    sigs: &[HostSig],
    imports: &[Import],
) -> Result<Vec<u32>, LinkFault>
    requires sigs { length sigs.now < 2 ^ 32 }
    requires imports { length imports.now < 2 ^ 32 }
    ensures named { IfOk result (λ calls. AreNamed sigs.now imports.now calls.items) }
    ensures fault { IfErr result (IsUnknown sigs.now imports.now) }
{
    let mut calls = Vec::new(alloc);
    let mut at = 0usize;
    while at < imports.len() {
        let Some(call) = call_of(sigs, &imports[at]) else {
            return Err(LinkFault::UnknownImport(at as u32));
        };
        calls.push(call)?;
        at += 1;
    }
    Ok(calls)
}

fn are_same(one: &[ValType], other: &[ValType]) -> bool
    ensures { Exactly (one.now ≡ other.now) result }
{
    one == other
}

fn is_same(one: Option<ValType>, other: Option<ValType>) -> bool
    ensures { Exactly (one ≡ other) result }
{
    one == other
}

/// The index of the type of what is imported, where it is a function of the type of a call.
fn kind_among(types: &[FuncType], desc: ImportDesc, sig: &HostSig) -> Option<u32>
    ensures { MatchOption result ((kind : _) → HasKind types.now desc sig.now kind → ⊥)
        (HasKind types.now desc sig.now) }
{
    let ImportDesc::Func(kind) = desc else {
        return None;
    };
    let declared = types.get(kind as usize)?;
    if !are_same(declared.params.as_slice(), sig.params) {
        return None;
    }
    if is_same(declared.result, sig.result) {
        Some(kind)
    } else {
        None
    }
}

/// The entry of its function for each import, whose calls have these numbers.
pub(crate) fn imported_functions(
    alloc: Global,
    sigs: &[HostSig],
    types: &[FuncType],
    imports: &[Import],
    calls: &[u32],
) -> Result<Vec<Entry>, LinkFault>
    requires imports { length imports.now < 2 ^ 32 }
    requires named { AreNamed sigs.now imports.now calls.now }
    ensures imported { IfOk result (λ functions. AreImported sigs.now types.now imports.now functions.items) }
    ensures kinds { IfOk result
        (λ functions.
        map kind_of functions.items ≡ filter_map (λ entry. imported_func entry.desc) imports.now) }
    ensures fault { IfErr result (IsOtherKind sigs.now types.now imports.now) }
{
    let mut functions = Vec::new(alloc);
    let mut at = 0usize;
    while at < imports.len() {
        let call = calls[at];
        let Some(kind) = kind_among(types, imports[at].desc, &sigs[call as usize]) else {
            return Err(LinkFault::ImportKind(at as u32));
        };
        functions.push(Entry::Imported { kind, call })?;
        at += 1;
    }
    Ok(functions)
}

/// The most parameters of the calls of these numbers, and 0 where there is none.
pub(crate) fn most_params(sigs: &[HostSig], calls: &[u32]) -> usize
    requires { EachAt (IsNumberOf sigs.now) calls.now }
    ensures { HaveMost sigs.now calls.now result }
{
    let mut most = 0usize;
    let mut at = 0usize;
    while at < calls.len() {
        most = most.max(sigs[calls[at] as usize].params.len());
        at += 1;
    }
    most
}
