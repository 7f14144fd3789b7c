// The instructions on variables of WebAssembly Core 1.0, chapter 4.4.3.
ghost use Rattle.std.specs.Prelude.{◌≡◌};
ghost use Rattle.wasm_values.specs.Syntax.{local_get as local_get_op, local_set as local_set_op};
ghost use Rattle.wasm_values.specs.Syntax.{local_tee as local_tee_op, global_get as global_get_op};
ghost use Rattle.wasm_values.specs.Syntax.{global_set as global_set_op};
ghost use Rattle.wasm_plain.specs.Done.{IsNext, IsDone, IsRun};
ghost use Rattle.wasm_stack.specs.Standing.{held};
ghost use Rattle.wasm_steps.specs.Program.{Store};

use crate::pushes::push;
use wasm_stack::Stack;
use wasm_steps::Trap;
use wasm_store::GlobalValues;

/// `local.get`, chapter 4.4.3: pushes the value of a local. It traps where there is no room.
#[inline]
pub fn local_get(stack: &mut Stack<'_>, local: u32) -> Result<(), Trap>
    requires { (store : Store) × IsNext (local_get_op local) (held stack.old) store }
    ensures { (store : Store)
        → IsRun (local_get_op local) (held stack.old) store result (held stack.new) store }
{
    let value = stack.local(local);
    push(stack, value)
}

/// `local.set`, chapter 4.4.3: gives a local the value of an operand, which it takes away.
#[inline]
pub fn local_set(stack: &mut Stack<'_>, local: u32)
    requires { (store : Store) × IsNext (local_set_op local) (held stack.old) store }
    ensures { (store : Store) → IsDone (local_set_op local) (held stack.old) store (held stack.new) store }
{
    let value = stack.operand(0);
    stack.set_local(local, value);
    stack.discard(1);
}

/// `local.tee`, chapter 4.4.3: gives a local the value of an operand, which stays.
#[inline]
pub fn local_tee(stack: &mut Stack<'_>, local: u32)
    requires { (store : Store) × IsNext (local_tee_op local) (held stack.old) store }
    ensures { (store : Store) → IsDone (local_tee_op local) (held stack.old) store (held stack.new) store }
{
    let kept = stack.operand(0);
    stack.set_local(local, kept);
}

/// `global.get`, chapter 4.4.3: pushes the value of a global variable. It traps where there is no room.
#[inline]
pub fn global_get(stack: &mut Stack<'_>, globals: &GlobalValues, global: u32) -> Result<(), Trap>
    requires { (store : Store) × (store.globals ≡ globals.now) × IsNext (global_get_op global)
        (held stack.old) store }
    ensures { (store : Store) → store.globals ≡ globals.now
        → IsRun (global_get_op global) (held stack.old) store result (held stack.new) store }
{
    let value = globals.get(global);
    push(stack, value)
}

/// `global.set`, chapter 4.4.3: gives a global variable the value of an operand, which it takes away.
#[inline]
pub fn global_set(stack: &mut Stack<'_>, globals: &mut GlobalValues, global: u32)
    requires { (store : Store) × (store.globals ≡ globals.old) × IsNext (global_set_op global)
        (held stack.old) store }
    ensures { (store : Store) → store.globals ≡ globals.old
        → IsDone (global_set_op global) (held stack.old) store (held stack.new)
        (record store { globals = globals.new }) }
{
    let value = stack.operand(0);
    globals.set(global, value);
    stack.discard(1);
}
