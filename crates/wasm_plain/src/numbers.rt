// The instructions on numbers of WebAssembly Core 1.0, chapter 4.4.1.
ghost use Rattle.wasm_values.specs.Syntax.{i32_const as i32_const_op, i64_const as i64_const_op};
ghost use Rattle.wasm_values.specs.Syntax.{numeric as numeric_op};
ghost use Rattle.wasm_numeric.specs.Opcodes.{IsUnary, IsBinary, IsCompare, IsConvert};
ghost use Rattle.wasm_plain.specs.Done.{IsNext, IsRun};
ghost use Rattle.wasm_stack.specs.Standing.{held};
ghost use Rattle.wasm_steps.specs.Plain.{IsTest};
ghost use Rattle.wasm_steps.specs.Program.{Store};

use crate::pushes::push;
use wasm_numeric::NumFault;
use wasm_stack::Stack;
use wasm_steps::Trap;

/// `i32.const`, chapter 4.4.1: pushes a number. It traps where there is no room.
#[inline]
pub fn i32_const(stack: &mut Stack<'_>, number: i32) -> Result<(), Trap>
    ensures { (store : Store)
        → IsRun (i32_const_op number) (held stack.old) store result (held stack.new) store }
{
    push(stack, u64::from(number.cast_unsigned()))
}

/// `i64.const`, chapter 4.4.1: pushes a number. It traps where there is no room.
#[inline]
pub fn i64_const(stack: &mut Stack<'_>, number: i64) -> Result<(), Trap>
    ensures { (store : Store)
        → IsRun (i64_const_op number) (held stack.old) store result (held stack.new) store }
{
    push(stack, number.cast_unsigned())
}

/// Counts bits, by opcode 67 to 69 or 79 to 7B, or carries the sign of the low bits on, by opcode C0 to C4.
#[inline]
fn unary(stack: &mut Stack<'_>, op: u8) -> Result<(), Trap>
    requires group { IsUnary op }
    requires is_next { (store : Store) × IsNext (numeric_op op) (held stack.old) store }
    ensures { (store : Store)
        → IsRun (numeric_op op) (held stack.old) store result (held stack.new) store }
{
    let operand = stack.operand(0);
    stack.replace(1, wasm_numeric::unary(op, operand));
    Ok(())
}

/// Calculates with two operands, by opcode 6A to 78 or 7C to 8A. It traps where there is no value.
#[inline]
fn binary(stack: &mut Stack<'_>, op: u8) -> Result<(), Trap>
    requires group { IsBinary op }
    requires is_next { (store : Store) × IsNext (numeric_op op) (held stack.old) store }
    ensures { (store : Store)
        → IsRun (numeric_op op) (held stack.old) store result (held stack.new) store }
{
    let second = stack.operand(0);
    let first = stack.operand(1);
    match wasm_numeric::binary(op, first, second) {
        Ok(value) => {
            stack.replace(2, value);
            Ok(())
        }
        Err(NumFault::DivideByZero) => Err(Trap::DivideByZero),
        Err(NumFault::Overflow) => Err(Trap::Overflow),
    }
}

/// Compares an operand with 0, by opcode 45 or 50.
#[inline]
fn test(stack: &mut Stack<'_>, op: u8) -> Result<(), Trap>
    requires group { IsTest op }
    requires is_next { (store : Store) × IsNext (numeric_op op) (held stack.old) store }
    ensures { (store : Store)
        → IsRun (numeric_op op) (held stack.old) store result (held stack.new) store }
{
    let operand = stack.operand(0);
    stack.replace(1, u64::from(wasm_numeric::compare(op, operand, 0)));
    Ok(())
}

/// Compares two operands, by opcode 46 to 4F or 51 to 5A.
#[inline]
fn compare(stack: &mut Stack<'_>, op: u8) -> Result<(), Trap>
    requires group { IsCompare op }
    requires two { IsTest op → ⊥ }
    requires is_next { (store : Store) × IsNext (numeric_op op) (held stack.old) store }
    ensures { (store : Store)
        → IsRun (numeric_op op) (held stack.old) store result (held stack.new) store }
{
    let second = stack.operand(0);
    let first = stack.operand(1);
    stack.replace(2, u64::from(wasm_numeric::compare(op, first, second)));
    Ok(())
}

/// Changes the width, by opcode A7, AC or AD.
#[inline]
fn convert(stack: &mut Stack<'_>, op: u8) -> Result<(), Trap>
    requires group { IsConvert op }
    requires is_next { (store : Store) × IsNext (numeric_op op) (held stack.old) store }
    ensures { (store : Store)
        → IsRun (numeric_op op) (held stack.old) store result (held stack.new) store }
{
    let operand = stack.operand(0);
    stack.replace(1, wasm_numeric::convert(op, operand));
    Ok(())
}

/// A match with an arm for each opcode of these lists, and the last for the opcode that is left, so that one
/// jump leads to an operation.
macro_rules! by_opcode {
    ($stack:ident, $op:ident; binary $($binary:literal)*; compare $($compare:literal)*;
        unary $($unary:literal)*; test $($test:literal)*; convert $($convert:literal)*;
        last $last:literal) => {
        match $op {
            $($binary => binary($stack, $binary),)*
            $($compare => compare($stack, $compare),)*
            $($unary => unary($stack, $unary),)*
            $($test => test($stack, $test),)*
            $($convert => convert($stack, $convert),)*
            _ => convert($stack, $last),
        }
    };
}

/// An operation on numbers by its opcode, chapter 4.4.1. It traps at a division or a remainder by 0, and at a
/// signed division of the least number
/// by -1.
#[inline]
pub fn numeric(stack: &mut Stack<'_>, op: u8) -> Result<(), Trap>
    requires { (store : Store) × IsNext (numeric_op op) (held stack.old) store }
    ensures { (store : Store)
        → IsRun (numeric_op op) (held stack.old) store result (held stack.new) store }
{
    by_opcode!(stack, op;
        binary 0x6a 0x6b 0x6c 0x6d 0x6e 0x6f 0x70 0x71 0x72 0x73 0x74 0x75 0x76 0x77 0x78
            0x7c 0x7d 0x7e 0x7f 0x80 0x81 0x82 0x83 0x84 0x85 0x86 0x87 0x88 0x89 0x8a;
        compare 0x46 0x47 0x48 0x49 0x4a 0x4b 0x4c 0x4d 0x4e 0x4f
            0x51 0x52 0x53 0x54 0x55 0x56 0x57 0x58 0x59 0x5a;
        unary 0x67 0x68 0x69 0x79 0x7a 0x7b 0xc0 0xc1 0xc2 0xc3 0xc4;
        test 0x45 0x50;
        convert 0xa7 0xac;
        last 0xad)
}
