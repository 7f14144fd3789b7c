// Writers of instructions.
ghost use Rattle.std.specs.Prelude.{◌≡◌, ◌∷◌, ◌++◌, [], OnOk};
ghost use Rattle.wasm_encode.specs.inner.Gains.{Gains, IsSpelled};
ghost use Rattle.wasm_values.specs.Instructions.{SpellsExpression, SpellsOp, SpellsOps};
ghost use Rattle.wasm_values.specs.Spelling.{SpellsU32, Then};
ghost use Rattle.wasm_values.specs.Syntax.{br_table, float_const, i32_const, i64_const};
ghost use Rattle.wasm_values.specs.Values.{SpellsBlockType};
ghost use Rattle.wasm_values.specs.View.{instr_view, instrs_view};

use crate::NoMemory;
use crate::values::put_block_type;
use crate::written::{IndexEntry, put_list};
use byte_fields::{put_leb_s64, put_leb_u32, put_u32, put_u64};
use std::alloc::Global;
use wasm_module::{FloatBytes, Indices, Instr, Instrs, ValType};

/// Writes an expression: instructions, and the end.
pub(crate) fn put_expression(
    alloc: Global,
    out: &mut Vec<u8>,
    instrs: &Instrs,
) -> Result<(), NoMemory>
    requires { IsSpelled SpellsExpression (instrs_view instrs.now) }
    ensures { OnOk result (Gains SpellsExpression (instrs_view instrs.now) out.old.items out.new.items) }
{
    put_instrs(alloc, out, instrs)?;
    Ok(out.push(0x0b)?)
}

/// Writes instructions, one behind the other.
#[cycle(put)]
fn put_instrs(alloc: Global, out: &mut Vec<u8>, instrs: &Instrs) -> Result<(), NoMemory>
    requires { IsSpelled SpellsOps (instrs_view instrs.now) }
    ensures { OnOk result (Gains SpellsOps (instrs_view instrs.now) out.old.items out.new.items) }
{
    for instr in instrs.as_slice() {
        put_instr(alloc, out, instr)?;
    }
    Ok(())
}

/// Writes an instruction.
#[cycle(put)]
fn put_instr(alloc: Global, out: &mut Vec<u8>, instr: &Instr) -> Result<(), NoMemory>
    requires { IsSpelled SpellsOp (instr_view instr.now) }
    ensures { OnOk result (Gains SpellsOp (instr_view instr.now) out.old.items out.new.items) }
{
    match instr {
        Instr::Unreachable => put_plain(out, 0x00),
        Instr::Nop => put_plain(out, 0x01),
        Instr::Block(kind, body) => {
            put_typed(out, 0x02, *kind)?;
            put_instrs(alloc, out, body)?;
            put_plain(out, 0x0b)
        }
        Instr::Loop(kind, body) => {
            put_typed(out, 0x03, *kind)?;
            put_instrs(alloc, out, body)?;
            put_plain(out, 0x0b)
        }
        Instr::If(kind, first, second) => {
            put_typed(out, 0x04, *kind)?;
            put_instrs(alloc, out, first)?;
            if second.len() > 0 {
                put_plain(out, 0x05)?;
                put_instrs(alloc, out, second)?;
            }
            put_plain(out, 0x0b)
        }
        Instr::Br(label) => put_index(out, 0x0c, *label),
        Instr::BrIf(label) => put_index(out, 0x0d, *label),
        Instr::BrTable(labels, last) => put_br_table(alloc, out, labels, *last),
        Instr::Return => put_plain(out, 0x0f),
        Instr::Call(func) => put_index(out, 0x10, *func),
        Instr::CallIndirect(kind) => {
            put_index(out, 0x11, *kind)?;
            put_plain(out, 0x00)
        }
        Instr::Drop => put_plain(out, 0x1a),
        Instr::Select => put_plain(out, 0x1b),
        Instr::LocalGet(local) => put_index(out, 0x20, *local),
        Instr::LocalSet(local) => put_index(out, 0x21, *local),
        Instr::LocalTee(local) => put_index(out, 0x22, *local),
        Instr::GlobalGet(global) => put_index(out, 0x23, *global),
        Instr::GlobalSet(global) => put_index(out, 0x24, *global),
        Instr::Load { op, align, offset } => put_memory(out, *op, *align, *offset),
        Instr::Store { op, align, offset } => put_memory(out, *op, *align, *offset),
        Instr::MemorySize => {
            put_plain(out, 0x3f)?;
            put_plain(out, 0x00)
        }
        Instr::MemoryGrow => {
            put_plain(out, 0x40)?;
            put_plain(out, 0x00)
        }
        Instr::I32Const(number) => put_i32(out, *number),
        Instr::I64Const(number) => put_i64(out, *number),
        Instr::Numeric(op) => put_plain(out, *op),
        Instr::FloatMemory { op, align, offset } => put_memory(out, *op, *align, *offset),
        Instr::FloatConst(bytes) => put_float(out, bytes),
        Instr::FloatPlain(op) => put_plain(out, *op),
    }
}

/// Writes a byte: an opcode, a mark behind one, or an end.
fn put_plain(out: &mut Vec<u8>, op: u8) -> Result<(), NoMemory>
    ensures { OnOk result (out.new.items ≡ out.old.items ++ op ∷ []) }
{
    Ok(out.push(op)?)
}

/// Writes an opcode and a block's type.
fn put_typed(out: &mut Vec<u8>, op: u8, kind: Option<ValType>) -> Result<(), NoMemory>
    ensures { OnOk result (Gains SpellsBlockType kind (out.old.items ++ op ∷ []) out.new.items) }
{
    put_plain(out, op)?;
    put_block_type(out, kind)
}

/// Writes an opcode and an index.
fn put_index(out: &mut Vec<u8>, op: u8, index: u32) -> Result<(), NoMemory>
    ensures { OnOk result (Gains SpellsU32 index (out.old.items ++ op ∷ []) out.new.items) }
{
    put_plain(out, op)?;
    put_leb_u32(out, index)
}

/// Writes an opcode, an alignment and an offset.
fn put_memory(out: &mut Vec<u8>, op: u8, align: u32, offset: u32) -> Result<(), NoMemory>
    ensures { OnOk result
        (Gains (Then SpellsU32 SpellsU32) (align, offset) (out.old.items ++ op ∷ []) out.new.items) }
{
    put_index(out, op, align)?;
    put_leb_u32(out, offset)
}

/// Writes a branch by an index.
fn put_br_table(
    alloc: Global,
    out: &mut Vec<u8>,
    labels: &Indices,
    last: u32,
) -> Result<(), NoMemory>
    requires { IsSpelled SpellsOp (br_table labels.now last) }
    ensures { OnOk result (Gains SpellsOp (br_table labels.now last) out.old.items out.new.items) }
{
    put_plain(out, 0x0e)?;
    put_list::<IndexEntry>(alloc, out, labels.as_slice())?;
    put_leb_u32(out, last)
}

/// Writes a constant of 32 bits.
fn put_i32(out: &mut Vec<u8>, number: i32) -> Result<(), NoMemory>
    requires { IsSpelled SpellsOp (i32_const number) }
    ensures { OnOk result (Gains SpellsOp (i32_const number) out.old.items out.new.items) }
{
    put_plain(out, 0x41)?;
    put_leb_s64(out, i64::from(number))
}

/// Writes a constant of 64 bits.
fn put_i64(out: &mut Vec<u8>, number: i64) -> Result<(), NoMemory>
    ensures { OnOk result (Gains SpellsOp (i64_const number) out.old.items out.new.items) }
{
    put_plain(out, 0x42)?;
    put_leb_s64(out, number)
}

/// Writes a constant float.
fn put_float(out: &mut Vec<u8>, bytes: &FloatBytes) -> Result<(), NoMemory>
    ensures { OnOk result (Gains SpellsOp (float_const bytes.now) out.old.items out.new.items) }
{
    match bytes {
        FloatBytes::Four(number) => {
            put_plain(out, 0x43)?;
            put_u32(out, *number)
        }
        FloatBytes::Eight(number) => {
            put_plain(out, 0x44)?;
            put_u64(out, *number)
        }
    }
}
