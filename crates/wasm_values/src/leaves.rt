// The reader of instructions that hold no others.
ghost use Rattle.std.specs.Prelude.{◌≡◌, ◌≢◌, ◌<◌, ◌≤◌, List, ℕ, [], ◌∷◌, IfSome, IfNone, IfOk, OnOk, IfErr};
ghost use Rattle.byte_fields.specs.Front.{Begins, BeginsNone, BeginsOnly};
ghost use Rattle.wasm_values.specs.Syntax.{Op, nesting};
ghost use Rattle.wasm_values.specs.View.{instr_view};
ghost use Rattle.wasm_values.specs.Instructions.{IsMemory, SpellsOp};
ghost use Rattle.wasm_values.specs.Spelling.{SpellsList, SpellsU32};

use crate::entry_lists::{Entries, Indices};
use crate::fields::mark;
use crate::instr::{FloatBytes, Instr};
use crate::read::{Index, ReadFault, entries};
use byte_fields::Cursor;
use std::alloc::Global;

/// Reads what is behind the opcode of an instruction on locals and globals.
pub(crate) fn variable(cursor: &mut Cursor, code: u8) -> Result<Instr, ReadFault>
    requires low { 0x20 ≤ code }
    requires high { code ≤ 0x24 }
    ensures found { IfOk result
        (λ instr. Begins SpellsOp (code ∷ cursor.old.0) (instr_view instr) cursor.new.0) }
    ensures only { IfOk result
        (λ instr. BeginsOnly SpellsOp (code ∷ cursor.old.0) (instr_view instr) cursor.new.0) }
    ensures flat { IfOk result (λ instr. nesting (instr_view instr) ≡ 0) }
    ensures malformed { IfErr result (λ e. e ≡ ReadFault.Malformed
        → BeginsNone SpellsOp (code ∷ cursor.old.0)) }
    ensures cause { IfErr result (λ e. e ≡ ReadFault.Malformed) }
{
    let index = cursor.leb_u32()?;
    match code {
        0x20 => Ok(Instr::LocalGet(index)),
        0x21 => Ok(Instr::LocalSet(index)),
        0x22 => Ok(Instr::LocalTee(index)),
        0x23 => Ok(Instr::GlobalGet(index)),
        _ => Ok(Instr::GlobalSet(index)),
    }
}

/// Reads a list of indices.
pub fn indices(alloc: Global, cursor: &mut Cursor) -> Result<Indices, ReadFault>
    ensures found { IfOk result (λ list. Begins (SpellsList SpellsU32) cursor.old.0 list cursor.new.0) }
    ensures only { IfOk result (λ list. BeginsOnly (SpellsList SpellsU32) cursor.old.0 list cursor.new.0) }
    ensures malformed { IfErr result (λ e. e ≡ ReadFault.Malformed
        → BeginsNone (SpellsList SpellsU32) cursor.old.0) }
{
    let list = entries::<Index>(alloc, cursor)?;
    let kept = Entries::of(list)?;
    Ok(kept)
}

/// Reads what is behind the opcode of a control instruction that holds no others, or of `drop` or
/// `select`.
#[tactic(auto, using(crate::proofs::Opcodes::memory_low, crate::proofs::Groups::meaning_low))]
pub(crate) fn control(alloc: Global, cursor: &mut Cursor, code: u8) -> Result<Instr, ReadFault>
    requires low { code < 0x20 }
    requires not_block { code ≢ 0x02 }
    requires not_loop { code ≢ 0x03 }
    requires not_if { code ≢ 0x04 }
    ensures found { IfOk result
        (λ instr. Begins SpellsOp (code ∷ cursor.old.0) (instr_view instr) cursor.new.0) }
    ensures only { IfOk result
        (λ instr. BeginsOnly SpellsOp (code ∷ cursor.old.0) (instr_view instr) cursor.new.0) }
    ensures flat { IfOk result (λ instr. nesting (instr_view instr) ≡ 0) }
    ensures malformed { IfErr result (λ e. e ≡ ReadFault.Malformed
        → BeginsNone SpellsOp (code ∷ cursor.old.0)) }
{
    match code {
        0x00 => Ok(Instr::Unreachable),
        0x01 => Ok(Instr::Nop),
        0x0c => {
            let label = cursor.leb_u32()?;
            Ok(Instr::Br(label))
        }
        0x0d => {
            let label = cursor.leb_u32()?;
            Ok(Instr::BrIf(label))
        }
        0x0e => {
            let labels = indices(alloc, cursor)?;
            let last = cursor.leb_u32()?;
            Ok(Instr::BrTable(labels, last))
        }
        0x0f => Ok(Instr::Return),
        0x10 => {
            let func = cursor.leb_u32()?;
            Ok(Instr::Call(func))
        }
        0x11 => {
            let kind = cursor.leb_u32()?;
            mark(cursor, 0x00)?;
            Ok(Instr::CallIndirect(kind))
        }
        0x1a => Ok(Instr::Drop),
        0x1b => Ok(Instr::Select),
        _ => Err(ReadFault::Malformed),
    }
}

// The instruction of this load or store, with what stands behind its opcode.
fn memory_instr(op: u8, align: u32, offset: u32) -> Instr
    requires low { 0x28 ≤ op }
    requires high { op ≤ 0x3e }
    ensures { IsMemory op align offset (instr_view result) }
{
    match op {
        0x28 | 0x29 | 0x2c..=0x35 => Instr::Load { op, align, offset },
        0x2a | 0x2b | 0x38 | 0x39 => Instr::FloatMemory { op, align, offset },
        _ => Instr::Store { op, align, offset },
    }
}

/// Reads what is behind the opcode of a load or a store.
pub(crate) fn memory(cursor: &mut Cursor, code: u8) -> Result<Instr, ReadFault>
    requires low { 0x28 ≤ code }
    requires high { code ≤ 0x3e }
    ensures found { IfOk result
        (λ instr. Begins SpellsOp (code ∷ cursor.old.0) (instr_view instr) cursor.new.0) }
    ensures only { IfOk result
        (λ instr. BeginsOnly SpellsOp (code ∷ cursor.old.0) (instr_view instr) cursor.new.0) }
    ensures flat { IfOk result (λ instr. nesting (instr_view instr) ≡ 0) }
    ensures malformed { IfErr result (λ e. e ≡ ReadFault.Malformed
        → BeginsNone SpellsOp (code ∷ cursor.old.0)) }
    ensures cause { IfErr result (λ e. e ≡ ReadFault.Malformed) }
{
    let align = cursor.leb_u32()?;
    let offset = cursor.leb_u32()?;
    Ok(memory_instr(code, align, offset))
}

/// Reads what is behind the opcode of an instruction on a memory's size, or of a constant.
pub(crate) fn constant(cursor: &mut Cursor, code: u8) -> Result<Instr, ReadFault>
    requires low { 0x3f ≤ code }
    requires high { code ≤ 0x44 }
    ensures found { IfOk result
        (λ instr. Begins SpellsOp (code ∷ cursor.old.0) (instr_view instr) cursor.new.0) }
    ensures only { IfOk result
        (λ instr. BeginsOnly SpellsOp (code ∷ cursor.old.0) (instr_view instr) cursor.new.0) }
    ensures flat { IfOk result (λ instr. nesting (instr_view instr) ≡ 0) }
    ensures malformed { IfErr result (λ e. e ≡ ReadFault.Malformed
        → BeginsNone SpellsOp (code ∷ cursor.old.0)) }
    ensures cause { IfErr result (λ e. e ≡ ReadFault.Malformed) }
{
    match code {
        0x3f => {
            mark(cursor, 0x00)?;
            Ok(Instr::MemorySize)
        }
        0x40 => {
            mark(cursor, 0x00)?;
            Ok(Instr::MemoryGrow)
        }
        0x41 => {
            let number = cursor.leb_s32()?;
            Ok(Instr::I32Const(number))
        }
        0x42 => {
            let number = cursor.leb_s64()?;
            Ok(Instr::I64Const(number))
        }
        0x43 => {
            let number = cursor.u32()?;
            Ok(Instr::FloatConst(FloatBytes::Four(number)))
        }
        _ => {
            let number = cursor.u64()?;
            Ok(Instr::FloatConst(FloatBytes::Eight(number)))
        }
    }
}

/// The instruction of an opcode that nothing stands behind, from 45 on.
pub(crate) fn plain(code: u8) -> Option<Instr>
    requires { 0x45 ≤ code }
    ensures found { IfSome result (λ instr. SpellsOp (code ∷ []) (instr_view instr)) }
    ensures flat { IfSome result (λ instr. nesting (instr_view instr) ≡ 0) }
    ensures none { IfNone result ((op : Op) (text : List ℕ) → SpellsOp (code ∷ text) op → ⊥) }
{
    match code {
        0x45..=0x5a | 0x67..=0x8a | 0xa7 | 0xac | 0xad | 0xc0..=0xc4 => Some(Instr::Numeric(code)),
        0x5b..=0x66 | 0x8b..=0xa6 | 0xa8..=0xab | 0xae..=0xbf => Some(Instr::FloatPlain(code)),
        _ => None,
    }
}

/// Reads what is behind the opcode of an instruction that holds no others.
pub(crate) fn leaf(alloc: Global, cursor: &mut Cursor, code: u8) -> Result<Instr, ReadFault>
    requires not_block { code ≢ 0x02 }
    requires not_loop { code ≢ 0x03 }
    requires not_if { code ≢ 0x04 }
    ensures found { IfOk result
        (λ instr. Begins SpellsOp (code ∷ cursor.old.0) (instr_view instr) cursor.new.0) }
    ensures only { IfOk result
        (λ instr. BeginsOnly SpellsOp (code ∷ cursor.old.0) (instr_view instr) cursor.new.0) }
    ensures flat { IfOk result (λ instr. nesting (instr_view instr) ≡ 0) }
    ensures malformed { IfErr result (λ e. e ≡ ReadFault.Malformed
        → BeginsNone SpellsOp (code ∷ cursor.old.0)) }
{
    match code {
        0x00..=0x1f => control(alloc, cursor, code),
        0x20..=0x24 => variable(cursor, code),
        0x28..=0x3e => memory(cursor, code),
        0x3f..=0x44 => constant(cursor, code),
        0x45..=0xff => match plain(code) {
            Some(instr) => Ok(instr),
            None => Err(ReadFault::Malformed),
        },
        _ => Err(ReadFault::Malformed),
    }
}
