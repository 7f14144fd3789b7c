// The values of constants.
ghost use Rattle.std.specs.Prelude.{◌≡◌, []};
ghost use Rattle.wasm_values.specs.Syntax.{next, no_ops};
ghost use Rattle.wasm_values.specs.View.{instr_view, instrs_view};
ghost use Rattle.wasm_typing.specs.Typing.{IsConstant};
ghost use Rattle.wasm_soundness.specs.Typed.{IsValue};
ghost use Rattle.wasm_link.specs.Linking.{constant};

use wasm_module::{Instr, Instrs};

fn value_of_one(instr: &Instr) -> u64
    ensures value { result ≡ constant (next (instr_view instr.now) no_ops) }
    ensures typed { (kind : _) → IsConstant [] (next (instr_view instr.now) no_ops) kind
        → IsValue kind result }
{
    match instr {
        Instr::I32Const(number) => u64::from(number.cast_unsigned()),
        Instr::I64Const(number) => number.cast_unsigned(),
        _ => 0,
    }
}

/// The value of a constant, an `i32` in the low 32 bits, and 0 for what is none.
pub(crate) fn value_of(init: &Instrs) -> u64
    ensures value { result ≡ constant (instrs_view init.now) }
    ensures typed { (kind : _) → IsConstant [] (instrs_view init.now) kind → IsValue kind result }
{
    let items = init.as_slice();
    if items.len() == 1 {
        value_of_one(&items[0])
    } else {
        0
    }
}
