// The types of the operations on numbers.
ghost use Rattle.std.specs.Prelude.{◌≡◌, IfOk, Some, option_map};
ghost use Rattle.wasm_values.specs.Syntax.{numeric as op_numeric};
ghost use Rattle.wasm_typing.specs.Operations.{of_one, of_two};
ghost use Rattle.wasm_typing.specs.inner.Tables.{signature_view};
ghost use Rattle.wasm_typing.specs.inner.Ranges.{signature_by_bounds};
ghost use Rattle.wasm_typing.specs.inner.Stands.{Checks};

use crate::operands::Operands;
use std::alloc::AllocError;
use wasm_module::ValType;

/// An operation takes one or two operands of one type, and gives a value.
#[derive(Clone, Copy)]
pub(crate) struct Operation {
    pub operand: ValType,
    pub is_binary: bool,
    pub value: ValType,
}

// The type of the operation of an opcode.
#[tactic(auto, unfolding(crate::specs::inner::Ranges::signature_by_bounds))]
fn signature(op: u8) -> Option<Operation>
    ensures { option_map signature_view result ≡ signature_by_bounds op }
{
    match op {
        0x45 => unary(ValType::I32, ValType::I32),
        0x46..=0x4f => binary(ValType::I32, ValType::I32),
        0x50 => unary(ValType::I64, ValType::I32),
        0x51..=0x5a => binary(ValType::I64, ValType::I32),
        0x67..=0x69 => unary(ValType::I32, ValType::I32),
        0x6a..=0x78 => binary(ValType::I32, ValType::I32),
        0x79..=0x7b => unary(ValType::I64, ValType::I64),
        0x7c..=0x8a => binary(ValType::I64, ValType::I64),
        0xa7 => unary(ValType::I64, ValType::I32),
        0xac..=0xad => unary(ValType::I32, ValType::I64),
        0xc0..=0xc1 => unary(ValType::I32, ValType::I32),
        0xc2..=0xc4 => unary(ValType::I64, ValType::I64),
        _ => None,
    }
}

fn unary(operand: ValType, value: ValType) -> Option<Operation>
    ensures { option_map signature_view result ≡ Some (of_one operand value) }
{
    Some(Operation {
        operand,
        is_binary: false,
        value,
    })
}

fn binary(operand: ValType, value: ValType) -> Option<Operation>
    ensures { option_map signature_view result ≡ Some (of_two operand value) }
{
    Some(Operation {
        operand,
        is_binary: true,
        value,
    })
}

/// An operation on numbers.
pub(crate) fn numeric(operands: &mut Operands, op: u8) -> Result<bool, AllocError>
    ensures { IfOk result (λ b. (cx labels : _)
        → Checks cx labels (op_numeric op) operands.old operands.new b) }
{
    let Some(operation) = signature(op) else {
        return Ok(false);
    };
    let operand = operation.operand;
    if operation.is_binary {
        return operands.apply(&[operand, operand], Some(operation.value));
    }
    operands.apply(&[operand], Some(operation.value))
}
