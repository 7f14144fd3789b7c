// Blocks and branches: WebAssembly Core 1.0, chapter 4.4.5.
ghost use Rattle.std.specs.Prelude.{◌≡◌, ◌≢◌, Option, true, slice_get, slice_index, if◌then◌else◌, ◌==◌};
ghost use Rattle.wasm_values.specs.declared.types.ValType.{ValType};
ghost use Rattle.wasm_values.specs.Syntax.{Ops, block as block_op, loop as loop_op, if_else, br};
ghost use Rattle.wasm_values.specs.Syntax.{br_if, br_table, return as return_op};
ghost use Rattle.wasm_values.specs.View.{instrs_view};
ghost use Rattle.wasm_steps.specs.Threads.{arity, Branches, Returns};
ghost use Rattle.wasm_steps.specs.Steps.{target_of};
ghost use Rattle.wasm_stack.specs.Held.{running, opened, without};
ghost use Rattle.wasm_stack.specs.Standing.{held};
ghost use Rattle.wasm_stack.specs.View.{ops_at, rest_of};
ghost use Rattle.wasm_machine.specs.Machine.{IsRunnable};

use wasm_module::{Indices, Instrs, ValType};
use wasm_stack::{Place, Stack};

/// Enters a block, whose end leads to `here`, as a branch to it does.
#[inline]
pub(crate) fn enter_block<'a>(
    stack: &mut Stack<'a>,
    here: Place<'a>,
    kind: Option<ValType>,
    body: &'a Instrs,
) -> Place<'a>
    requires { IsRunnable (block_op kind (instrs_view body.now)) (ops_at here) (held stack.old) }
    ensures inside { ops_at result ≡ instrs_view body.entry.now }
    ensures opened { held stack.new ≡ opened (arity kind) (ops_at here.entry) (ops_at here.entry)
        (held stack.old) }
{
    stack.enter(here, false, kind.is_some());
    Place {
        code: body.as_slice(),
    }
}

/// Enters the loop that stands at `again`, where a branch to it leads.
#[inline]
pub(crate) fn enter_loop<'a>(stack: &mut Stack<'a>, again: Place<'a>, body: &'a Instrs) -> Place<'a>
    requires { (kind : Option ValType) × (rest : Ops) × IsRunnable (loop_op kind (instrs_view body.now)) rest
        (held stack.old) }
    ensures inside { ops_at result ≡ instrs_view body.entry.now }
    ensures opened { held stack.new ≡ opened 0 (ops_at again.entry) (rest_of true again.entry)
        (held stack.old) }
{
    stack.enter(again, true, false);
    Place {
        code: body.as_slice(),
    }
}

/// Enters the first part of an `if` where the operand is not 0, and the second elsewhere.
#[inline]
pub(crate) fn enter_choice<'a>(
    stack: &mut Stack<'a>,
    here: Place<'a>,
    kind: Option<ValType>,
    first: &'a Instrs,
    second: &'a Instrs,
) -> Place<'a>
    requires { IsRunnable (if_else kind (instrs_view first.now) (instrs_view second.now)) (ops_at here)
        (held stack.old) }
    ensures inside { ops_at result ≡ (if slice_index (held stack.old).operands 0 == 0
        then instrs_view second.entry.now else instrs_view first.entry.now) }
    ensures opened { held stack.new ≡ opened (arity kind) (ops_at here.entry) (ops_at here.entry)
        (without 1 (held stack.old)) }
{
    let condition = stack.operand(0);
    stack.discard(1);
    stack.enter(here, false, kind.is_some());
    if condition == 0 {
        return Place {
            code: second.as_slice(),
        };
    }
    Place {
        code: first.as_slice(),
    }
}

/// Branches where the operand is not 0, and goes on to `here` elsewhere.
#[inline]
pub(crate) fn branch_if<'a>(stack: &mut Stack<'a>, here: Place<'a>, to: u32) -> Place<'a>
    requires { IsRunnable (br_if to) (ops_at here) (held stack.old) }
    ensures taken { slice_index (held stack.old).operands 0 ≢ 0 → (code : Ops)
        → Branches to (running code (without 1 (held stack.old))) (running (ops_at result) (held stack.new)) }
    ensures passed { slice_index (held stack.old).operands 0 ≡ 0
        → (held stack.new ≡ without 1 (held stack.old)) × (ops_at result ≡ ops_at here.entry) }
{
    let condition = stack.operand(0);
    stack.discard(1);
    if condition == 0 {
        return here;
    }
    stack.branch(to as usize)
}

/// Branches to the label of the operand's index, or to the last.
#[inline]
pub(crate) fn branch_by_index<'a>(stack: &mut Stack<'a>, several: &Indices, last: u32) -> Place<'a>
    requires { (rest : Ops) × IsRunnable (br_table several.now last) rest (held stack.old) }
    ensures { (code : Ops)
        → Branches (target_of several.now last (slice_index (held stack.old).operands 0))
        (running code (without 1 (held stack.old))) (running (ops_at result) (held stack.new)) }
{
    let index = stack.operand(0);
    stack.discard(1);
    let to = nth(several.as_slice(), index).unwrap_or(last);
    stack.branch(to as usize)
}

#[inline]
fn nth(several: &[u32], index: u64) -> Option<u32>
    ensures { result ≡ slice_get several.now index }
{
    several.get(index as usize).copied()
}

/// Leaves all blocks of the function, and the function.
#[inline]
pub(crate) fn leave_function<'a>(stack: &mut Stack<'a>) -> Place<'a>
    requires { (rest : Ops) × IsRunnable return_op rest (held stack.old) }
    ensures { (code : Ops)
        → Returns (running code (held stack.old)) (running (ops_at result) (held stack.new)) }
{
    let to = stack.open_labels();
    stack.branch(to)
}
