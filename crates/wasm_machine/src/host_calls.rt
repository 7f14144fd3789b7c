// Calls of the host.
ghost use Rattle.std.specs.Prelude.{◌≡◌, ◌+◌, ◌-◌, ◌<◌, ◌≤◌, ◌++◌, length, take, reverse, vec_capacity};
ghost use Rattle.std.specs.Prelude.{MatchResult};
ghost use Rattle.wasm_steps.specs.Program.{most_values};
ghost use Rattle.wasm_steps.specs.Threads.{arity, size};
ghost use Rattle.wasm_steps.specs.Steps.{argument as argument_of, answered};
ghost use Rattle.wasm_values.specs.Syntax.{no_ops};
ghost use Rattle.wasm_soundness.specs.Typed.{IsValue, AreValues};
ghost use Rattle.wasm_stack.specs.Held.{running};
ghost use Rattle.wasm_stack.specs.Standing.{held};
ghost use Rattle.wasm_machine.specs.inner.Calls.{arguments_of, IsAnswered};

use wasm_module::{FuncType, ValType};
use wasm_stack::{MOST_VALUES, Stack};
use wasm_steps::{Host, Trap};
use wasm_store::Pages;

/// An operand as a host gets it: an i32 with its sign carried on.
fn argument(kind: ValType, operand: u64) -> i64
    requires { IsValue kind operand }
    ensures { result ≡ argument_of kind operand }
{
    match kind {
        ValType::I32 | ValType::F32 => i64::from((operand as u32).cast_signed()),
        ValType::I64 | ValType::F64 => operand.cast_signed(),
    }
}

/// Writes operands as a host gets them, in room that is there.
fn write_arguments(arguments: &mut Vec<i64>, kinds: &[ValType], operands: &[u64])
    requires values { AreValues kinds.now operands.now }
    requires room { length kinds.now ≤ vec_capacity arguments.old }
    ensures written { arguments.new.items ≡ arguments_of kinds.now operands.now }
    ensures capacity { vec_capacity arguments.new ≡ vec_capacity arguments.old }
{
    arguments.clear();
    let mut at = 0usize;
    while at < kinds.len() && at < operands.len() {
        arguments.push_reserved(argument(kinds[at], operands[at]));
        at += 1;
    }
}

/// Pushes what a host answered: of an i32 the low 32 bits.
fn push_answer(stack: &mut Stack<'_>, kind: Option<ValType>, answer: i64)
    requires { size (running no_ops (held stack.old)) + arity kind ≤ most_values }
    ensures { held stack.new
        ≡ record (held stack.old) { operands = answered kind answer ++ (held stack.old).operands } }
{
    let value = answer.cast_unsigned();
    match kind {
        None => {}
        Some(ValType::I32 | ValType::F32) => stack.push_within(value & 0xffff_ffff),
        Some(ValType::I64 | ValType::F64) => stack.push_within(value),
    }
}

/// Calls the host with the top operands. A result for which there is no room traps before the host is asked.
pub(crate) fn call_host<H: Host>(
    stack: &mut Stack<'_>,
    pages: &mut Pages,
    arguments: &mut Vec<i64>,
    host: &mut H,
    call: u32,
    kind: &FuncType,
) -> Result<(), Trap>
    requires there { length kind.now.params ≤ length (held stack.old).operands }
    requires values { AreValues kind.now.params
        (reverse (take (length kind.now.params) (held stack.old).operands)) }
    requires room { length kind.now.params ≤ vec_capacity arguments.old }
    ensures answered { MatchResult result
        (λ _. IsAnswered H.answers kind.now call (held stack.old)
        (held stack.new) pages.old pages.new host.old host.new)
        (λ trap. (trap ≡ Trap.StackFull) × (held stack.new ≡ held stack.old) × (pages.new ≡ pages.old)
        × (host.new ≡ host.old)) }
    ensures fits { MatchResult result
        (λ _. size (running no_ops (held stack.old)) - length kind.now.params + arity kind.now.result
        ≤ most_values)
        (λ _. most_values < size (running no_ops (held stack.old)) - length kind.now.params
        + arity kind.now.result) }
    ensures capacity { vec_capacity arguments.new ≡ vec_capacity arguments.old }
{
    let params = kind.params.as_slice().len();
    let results = usize::from(kind.result.is_some());
    if stack.size() - params > MOST_VALUES - results {
        return Err(Trap::StackFull);
    }
    write_arguments(arguments, kind.params.as_slice(), stack.operands(params));
    let answer = host.answer(call, arguments.as_slice(), pages);
    stack.discard(params);
    push_answer(stack, kind.result, answer);
    Ok(())
}
