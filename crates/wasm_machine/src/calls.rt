// Calls: WebAssembly Core 1.0, chapters 4.4.5 and 4.4.7.
ghost use Rattle.std.specs.Prelude.{◌≡◌, ◌+◌, ◌<◌, ◌≤◌, Some, length, slice_get, vec_capacity, MatchResult};
ghost use Rattle.wasm_values.specs.View.{items_view};
ghost use Rattle.wasm_values.specs.Syntax.{no_ops, next, call_indirect};
ghost use Rattle.wasm_steps.specs.Program.{Function, Store, most_frames, most_values};
ghost use Rattle.wasm_steps.specs.Threads.{frame_count, size};
ghost use Rattle.wasm_stack.specs.Held.{running, most_controls};
ghost use Rattle.wasm_stack.specs.Standing.{held};
ghost use Rattle.wasm_stack.specs.View.{ops_at};
ghost use Rattle.wasm_link.specs.Kept.{TakesAtMost};
ghost use Rattle.wasm_soundness.specs.Typed.{IsTypedProgram};
ghost use Rattle.wasm_machine.specs.Machine.{base_of, program_of, IsSoundAt, Executes};
ghost use Rattle.wasm_machine.specs.inner.Calls.{IsEntered, IsNotEntered, MayCall, CallRuns, CallIsTyped};

use crate::host_calls::call_host;
use wasm_link::{Callee, Linked};
use wasm_module::Instr;
use wasm_stack::{MOST_FRAMES, Place, Stack};
use wasm_steps::{Host, Trap};
use wasm_store::{FuncTable, Pages};

/// Enters a function whose end leads to `here`. The frames are counted before the room is looked at.
#[inline]
fn enter_function<'a>(
    stack: &mut Stack<'a>,
    here: Place<'a>,
    params: usize,
    more: usize,
    results: usize,
    body: &'a [Instr],
) -> Result<Place<'a>, Trap>
    requires there { params ≤ length (held stack.old).operands }
    requires results { results ≤ 1 }
    requires levels { frame_count (held stack.old).levels < most_frames
        → size (running no_ops (held stack.old)) + more ≤ most_values
        → length (held stack.old).levels < most_controls }
    ensures inside { MatchResult result (λ place. ops_at place ≡ items_view body.entry.now)
        (λ _. held stack.new ≡ held stack.old) }
    ensures entered { MatchResult result
        (λ _. IsEntered params more results (ops_at here.entry) (held stack.old) (held stack.new))
        (IsNotEntered more (ops_at here.entry) (held stack.old)) }
{
    if stack.frame_count() >= MOST_FRAMES {
        return Err(Trap::CallDepth);
    }
    if !stack.call(here, params, more, results == 1) {
        return Err(Trap::StackFull);
    }
    Ok(Place { code: body })
}

/// Calls a function of the module or of the host, whose end leads to `here`.
#[inline(always)]
pub(crate) fn call_function<'a, H: Host>(
    linked: &'a Linked,
    stack: &mut Stack<'a>,
    pages: &mut Pages,
    arguments: &mut Vec<i64>,
    host: &mut H,
    here: Place<'a>,
    func: u32,
) -> Result<Place<'a>, Trap>
    requires known { func < length (program_of linked.now).functions }
    requires ready { (found : Function) → slice_get (program_of linked.now).functions func ≡ Some found
        → MayCall found (ops_at here) (held stack.old) }
    requires room { TakesAtMost (program_of linked.now) (vec_capacity arguments.old) }
    ensures runs { (found : Function) (before : Store)
        → slice_get (program_of linked.entry.now).functions func ≡ Some found → before.memory ≡ pages.old
        → CallRuns H.answers found (ops_at here.entry) (held stack.old) before host.old result
        (held stack.new) pages.new host.new }
    ensures typed { (found : Function) → slice_get (program_of linked.entry.now).functions func ≡ Some found
        → CallIsTyped found (ops_at here.entry) (held stack.old) result (held stack.new) }
    ensures capacity { vec_capacity arguments.new ≡ vec_capacity arguments.old }
{
    match linked.callee(func) {
        Callee::Imported { call, kind } => {
            match call_host(stack, pages, arguments, host, call, kind) {
                Ok(()) => Ok(here),
                Err(trap) => Err(trap),
            }
        }
        Callee::Defined {
            params,
            more,
            results,
            body,
        } => enter_function(stack, here, params, more, results, body),
    }
}

/// Calls the function that the table has at the operand's index, where it has the type of this index.
#[inline]
pub(crate) fn call_by_index<'a, H: Host>(
    linked: &'a Linked,
    stack: &mut Stack<'a>,
    pages: &mut Pages,
    table: &FuncTable,
    arguments: &mut Vec<i64>,
    host: &mut H,
    here: Place<'a>,
    index: u32,
) -> Result<Place<'a>, Trap>
    requires typed { IsTypedProgram (base_of linked.now) (program_of linked.now) }
    requires sound { (store : Store) × (store.table ≡ table.now) × IsSoundAt (base_of linked.now)
        (next (call_indirect index) (ops_at here)) (held stack.old) store }
    requires room { TakesAtMost (program_of linked.now) (vec_capacity arguments.old) }
    ensures runs { (store : Store) → store.table ≡ table.now → store.memory ≡ pages.old
        → IsSoundAt (base_of linked.entry.now) (next (call_indirect index) (ops_at here.entry))
        (held stack.old) store
        → Executes (program_of linked.entry.now) H.answers (base_of linked.entry.now)
        (next (call_indirect index) (ops_at here.entry)) (held stack.old) store host.old result
        (held stack.new) (record store { memory = pages.new }) host.new }
    ensures capacity { vec_capacity arguments.new ≡ vec_capacity arguments.old }
{
    let entry = stack.operand(0);
    let func = match table.get(entry as u32) {
        None => return Err(Trap::TableBounds),
        Some(None) => return Err(Trap::EmptyEntry),
        Some(Some(func)) => func,
    };
    if !linked.has_type(func, index) {
        return Err(Trap::WrongType);
    }
    stack.discard(1);
    match call_function(linked, stack, pages, arguments, host, here, func) {
        Ok(place) => Ok(place),
        Err(trap) => {
            // A trap leaves the stack as it was: the index goes back to its place.
            stack.push_within(entry);
            Err(trap)
        }
    }
}
