// The run of a function that is invoked from outside.
ghost use Rattle.std.specs.Prelude.{◌≡◌, ◌≤◌, ℕ, vec_capacity};
ghost use Rattle.wasm_soundness.specs.Typed.{IsTypedProgram, IsTypedStore};
ghost use Rattle.wasm_stack.specs.Standing.{held};
ghost use Rattle.wasm_stack.specs.View.{ops_at};
ghost use Rattle.wasm_link.specs.Kept.{TakesAtMost};
ghost use Rattle.wasm_link.specs.Callee.{store_view};
ghost use Rattle.wasm_machine.specs.Machine.{base_of, program_of, state_of, IsSoundAt};
ghost use Rattle.wasm_machine.specs.Runs.{EndsSo};

use crate::execute::execute;
use wasm_link::{Linked, Stored};
use wasm_stack::{Place, Stack};
use wasm_steps::{Host, Outcome};

/// Runs from a place on, for a budget of instructions.
pub(crate) fn run_from<'a, H: Host>(
    linked: &'a Linked,
    stack: &mut Stack<'a>,
    stored: &mut Stored,
    arguments: &mut Vec<i64>,
    host: &mut H,
    first: Place<'a>,
    fuel: u64,
) -> Outcome
    requires typed { IsTypedProgram (base_of linked.now) (program_of linked.now) }
    requires sound { IsSoundAt (base_of linked.now) (ops_at first) (held stack.old) (store_view stored.old) }
    requires room { TakesAtMost (program_of linked.now) (vec_capacity arguments.old) }
    ensures ends { EndsSo (program_of linked.entry.now) H.answers
        (state_of (ops_at first.entry) (held stack.old) (store_view stored.old) host.old) fuel result
        (store_view stored.new) host.new }
    ensures typed { (used : ℕ) → result ≡ Outcome.Finished used
        → IsTypedStore (base_of linked.entry.now) (store_view stored.new) }
    ensures capacity { vec_capacity arguments.new ≡ vec_capacity arguments.old }
{
    let mut here = first;
    let mut used = 0u64;
    loop {
        let again = here;
        let Some(instr) = here.next() else {
            match stack.leave() {
                Some(place) => here = place,
                None => return Outcome::Finished { used },
            }
            continue;
        };
        if used >= fuel {
            return Outcome::Spent { used };
        }
        used += 1;
        match execute(linked, stack, stored, arguments, host, again, here, instr) {
            Ok(place) => here = place,
            Err(trap) => return Outcome::Trapped { used, trap },
        }
    }
}
