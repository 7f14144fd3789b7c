// One instruction.
ghost use Rattle.std.specs.Prelude.{◌≡◌, true, vec_capacity, MatchResult};
ghost use Rattle.wasm_values.specs.Syntax.{next};
ghost use Rattle.wasm_values.specs.View.{instr_view};
ghost use Rattle.wasm_soundness.specs.Typed.{IsTypedProgram};
ghost use Rattle.wasm_stack.specs.Standing.{held};
ghost use Rattle.wasm_stack.specs.View.{ops_at, rest_of};
ghost use Rattle.wasm_link.specs.Kept.{TakesAtMost};
ghost use Rattle.wasm_link.specs.Callee.{store_view};
ghost use Rattle.wasm_machine.specs.Machine.{base_of, program_of, IsSoundAt, Executes};

use crate::calls::{call_by_index, call_function};
use crate::control::{
    branch_by_index, branch_if, enter_block, enter_choice, enter_loop, leave_function,
};
use wasm_link::{Linked, Stored};
use wasm_module::Instr;
use wasm_plain::{
    drop_value, global_get, global_set, i32_const, i64_const, load, local_get, local_set,
    local_tee, memory_grow, memory_size, numeric, select, store,
};
use wasm_stack::{Place, Stack};
use wasm_steps::{Host, Trap};

/// A place to go on from, where there was no trap.
#[inline]
fn onward<'a>(ran: Result<(), Trap>, here: Place<'a>) -> Result<Place<'a>, Trap>
    ensures { MatchResult ran (λ _. MatchResult result (λ place. place ≡ here.entry) (λ _. ⊥))
        (λ trap. MatchResult result (λ _. ⊥) (λ seen. seen ≡ trap)) }
{
    match ran {
        Ok(()) => Ok(here),
        Err(trap) => Err(trap),
    }
}

/// Runs an instruction: `again` is its place, and `here` that behind it. Answers where to go on.
#[inline]
pub(crate) fn execute<'a, H: Host>(
    linked: &'a Linked,
    stack: &mut Stack<'a>,
    stored: &mut Stored,
    arguments: &mut Vec<i64>,
    host: &mut H,
    again: Place<'a>,
    here: Place<'a>,
    instr: &'a Instr,
) -> Result<Place<'a>, Trap>
    requires typed { IsTypedProgram (base_of linked.now) (program_of linked.now) }
    requires sound { IsSoundAt (base_of linked.now) (next (instr_view instr.now) (ops_at here))
        (held stack.old) (store_view stored.old) }
    requires room { TakesAtMost (program_of linked.now) (vec_capacity arguments.old) }
    requires again { ops_at again ≡ next (instr_view instr.now) (ops_at here) }
    requires behind { ops_at here ≡ rest_of true again }
    ensures executes { Executes (program_of linked.entry.now) H.answers (base_of linked.entry.now)
        (next (instr_view instr.entry.now) (ops_at here.entry)) (held stack.old)
        (store_view stored.old) host.old result (held stack.new) (store_view stored.new) host.new }
    ensures capacity { vec_capacity arguments.new ≡ vec_capacity arguments.old }
{
    match instr {
        Instr::Unreachable => Err(Trap::Unreachable),
        Instr::Nop => Ok(here),
        Instr::Block(kind, body) => Ok(enter_block(stack, here, *kind, body)),
        Instr::Loop(_, body) => Ok(enter_loop(stack, again, body)),
        Instr::If(kind, first, second) => Ok(enter_choice(stack, here, *kind, first, second)),
        Instr::Br(to) => Ok(stack.branch(*to as usize)),
        Instr::BrIf(to) => Ok(branch_if(stack, here, *to)),
        Instr::BrTable(several, last) => Ok(branch_by_index(stack, several, *last)),
        Instr::Return => Ok(leave_function(stack)),
        Instr::Call(func) => call_function(
            linked,
            stack,
            &mut stored.pages,
            arguments,
            host,
            here,
            *func,
        ),
        Instr::CallIndirect(index) => call_by_index(
            linked,
            stack,
            &mut stored.pages,
            &stored.table,
            arguments,
            host,
            here,
            *index,
        ),
        Instr::Drop => {
            drop_value(stack);
            Ok(here)
        }
        Instr::Select => {
            select(stack);
            Ok(here)
        }
        Instr::LocalGet(local) => onward(local_get(stack, *local), here),
        Instr::LocalSet(local) => {
            local_set(stack, *local);
            Ok(here)
        }
        Instr::LocalTee(local) => {
            local_tee(stack, *local);
            Ok(here)
        }
        Instr::GlobalGet(global) => onward(global_get(stack, &stored.globals, *global), here),
        Instr::GlobalSet(global) => {
            global_set(stack, &mut stored.globals, *global);
            Ok(here)
        }
        Instr::Load { op, align, offset } => {
            onward(load(stack, &stored.pages, *op, *align, *offset), here)
        }
        Instr::Store { op, align, offset } => {
            onward(store(stack, &mut stored.pages, *op, *align, *offset), here)
        }
        Instr::MemorySize => onward(memory_size(stack, &stored.pages), here),
        Instr::MemoryGrow => {
            memory_grow(stack, &mut stored.pages);
            Ok(here)
        }
        Instr::I32Const(number) => onward(i32_const(stack, *number), here),
        Instr::I64Const(number) => onward(i64_const(stack, *number), here),
        Instr::Numeric(op) => onward(numeric(stack, *op), here),
        // A linked module has no floats.
        Instr::FloatMemory { .. } => unreachable!(),
        Instr::FloatConst(_) => unreachable!(),
        Instr::FloatPlain(_) => unreachable!(),
    }
}
