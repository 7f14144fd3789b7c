// The constants that globals begin with, and the offsets of segments: WebAssembly Core 1.0, chapter 3.3.7.
ghost use Rattle.std.specs.Prelude.{◌≡◌, slice_get};
ghost use Rattle.wasm_values.specs.Syntax.{global_get as op_global_get, next, no_ops};
ghost use Rattle.wasm_values.specs.View.{instr_view, instrs_view};
ghost use Rattle.wasm_typing.specs.Typing.{IsConstant};
ghost use Rattle.wasm_typing.specs.inner.Stands.{Exactly};

use wasm_module::{GlobalType, Instr, Instrs, ValType};

fn is_same(one: ValType, other: ValType) -> bool
    ensures { Exactly (one ≡ other) result }
{
    one == other
}

fn nth(imported: &[GlobalType], index: u32) -> Option<GlobalType>
    ensures { result ≡ slice_get imported.now index }
{
    imported.get(index as usize).copied()
}

fn is_imported(imported: &[GlobalType], index: u32, value: ValType) -> bool
    ensures { Exactly (IsConstant imported.now (next (op_global_get index) no_ops) value) result }
{
    let Some(kind) = nth(imported, index) else {
        return false;
    };
    if kind.mutable {
        return false;
    }
    is_same(kind.value, value)
}

fn is_one(imported: &[GlobalType], instr: &Instr, value: ValType) -> bool
    ensures { Exactly (IsConstant imported.now (next (instr_view instr.now) no_ops) value) result }
{
    match instr {
        Instr::I32Const(_) => is_same(value, ValType::I32),
        Instr::I64Const(_) => is_same(value, ValType::I64),
        Instr::GlobalGet(index) => is_imported(imported, *index, value),
        _ => false,
    }
}

/// Whether it is a constant of this type.
pub(crate) fn is_constant(imported: &[GlobalType], init: &Instrs, value: ValType) -> bool
    ensures { Exactly (IsConstant imported.now (instrs_view init.now) value) result }
{
    let items = init.as_slice();
    if items.len() == 1 {
        is_one(imported, &items[0], value)
    } else {
        false
    }
}
