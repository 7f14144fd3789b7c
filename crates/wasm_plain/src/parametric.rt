// The parametric instructions of WebAssembly Core 1.0, chapter 4.4.2.
ghost use Rattle.wasm_values.specs.Syntax.{drop_value as drop_op, select as select_op};
ghost use Rattle.wasm_plain.specs.Done.{IsNext, IsDone};
ghost use Rattle.wasm_stack.specs.Standing.{held};
ghost use Rattle.wasm_steps.specs.Program.{Store};

use wasm_stack::Stack;

/// `drop`, chapter 4.4.2: takes an operand away.
#[inline]
pub fn drop_value(stack: &mut Stack<'_>)
    requires { (store : Store) × IsNext drop_op (held stack.old) store }
    ensures { (store : Store) → IsDone drop_op (held stack.old) store (held stack.new) store }
{
    stack.discard(1);
}

/// `select`, chapter 4.4.2: the second of two operands where the third, which stands on top, is 0, and the
/// first elsewhere.
#[inline]
pub fn select(stack: &mut Stack<'_>)
    requires { (store : Store) × IsNext select_op (held stack.old) store }
    ensures { (store : Store) → IsDone select_op (held stack.old) store (held stack.new) store }
{
    let condition = stack.operand(0);
    let second = stack.operand(1);
    let first = stack.operand(2);
    let chosen = if condition == 0 { second } else { first };
    stack.replace(3, chosen);
}
