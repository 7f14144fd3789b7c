// The push of a value, for which there may be no room.
ghost use Rattle.std.specs.Prelude.{◌≡◌, ◌<◌, ◌≤◌, MatchResult};
ghost use Rattle.wasm_values.specs.Syntax.{no_ops};
ghost use Rattle.wasm_stack.specs.Held.{running, pushed};
ghost use Rattle.wasm_stack.specs.Standing.{held};
ghost use Rattle.wasm_steps.specs.Program.{most_values};
ghost use Rattle.wasm_steps.specs.Threads.{size};

use wasm_stack::Stack;
use wasm_steps::Trap;

/// Pushes a value. It traps where there is no room, and leaves the stack as it was.
#[inline]
pub(crate) fn push(stack: &mut Stack<'_>, value: u64) -> Result<(), Trap>
    ensures { MatchResult result (λ _. (size (running no_ops (held stack.old)) < most_values)
        × (held stack.new ≡ pushed value (held stack.old))) (λ trap. (trap ≡ Trap.StackFull)
        × (most_values ≤ size (running no_ops (held stack.old))) × (held stack.new ≡ held stack.old)) }
{
    if stack.push(value) {
        Ok(())
    } else {
        Err(Trap::StackFull)
    }
}
