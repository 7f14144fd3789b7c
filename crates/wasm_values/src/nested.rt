// The reader of instructions, which nest to a depth.
ghost use Rattle.std.specs.Prelude.{◌≡◌, ◌≤◌, ◌<◌, List, ℕ, ◌∷◌, length, IfOk, OnOk, IfErr};
ghost use Rattle.byte_fields.specs.Front.{Begins, BeginsNone, BeginsOnly};
ghost use Rattle.wasm_values.specs.View.{instr_view, instrs_view};
ghost use Rattle.wasm_values.specs.inner.Nested.{SpellsBody, SpellsBranches, SpellsInner, SpellsShallow};

use crate::entry_lists::Entries;
use crate::fields::block_type;
use crate::instr::{Instr, Instrs};
use crate::leaves::leaf;
use crate::read::ReadFault;
use byte_fields::Cursor;
use std::alloc::Global;

// Instructions, and the byte behind them.
#[derive(Drop)]
struct Ended {
    instrs: Instrs,
    end: u8,
}

// The two parts of an `if`.
#[derive(Drop)]
struct Parts {
    first: Instrs,
    second: Instrs,
}

// The instructions up to 0B or 05, which is taken too.
#[cycle(read)]
fn body(alloc: Global, cursor: &mut Cursor, depth: u32) -> Result<Ended, ReadFault>
    ensures found { IfOk result
        (λ value. Begins (SpellsBody depth) cursor.old.0 (instrs_view value.instrs, value.end) cursor.new.0) }
    ensures only { IfOk result
        (λ value. BeginsOnly (SpellsBody depth) cursor.old.0
        (instrs_view value.instrs, value.end) cursor.new.0) }
    ensures malformed { IfErr result (λ e. e ≡ ReadFault.Malformed
        → BeginsNone (SpellsBody depth) cursor.old.0) }
{
    let mut list = Vec::new(alloc);
    loop {
        let code = cursor.u8()?;
        if code == 0x0b || code == 0x05 {
            let kept = Entries::of(list)?;
            return Ok(Ended {
                instrs: Instrs { list: kept },
                end: code,
            });
        }
        let next = instr(alloc, cursor, code, depth)?;
        list.push(next)?;
    }
}

/// Reads the expression inside of a block. Up to `depth` blocks stand within one another, this one
/// counted.
#[cycle(read)]
pub fn inner(alloc: Global, cursor: &mut Cursor, depth: u32) -> Result<Instrs, ReadFault>
    ensures found { IfOk result
        (λ value. Begins (SpellsInner depth) cursor.old.0 (instrs_view value) cursor.new.0) }
    ensures only { IfOk result
        (λ value. BeginsOnly (SpellsInner depth) cursor.old.0 (instrs_view value) cursor.new.0) }
    ensures malformed { IfErr result (λ e. e ≡ ReadFault.Malformed
        → BeginsNone (SpellsInner depth) cursor.old.0) }
{
    if depth == 0 {
        return Err(ReadFault::Malformed);
    }
    let inside = body(alloc, cursor, depth - 1)?;
    if inside.end == 0x0b {
        Ok(inside.instrs)
    } else {
        Err(ReadFault::Malformed)
    }
}

// The two parts of an `if`. Up to `depth` blocks stand within one another, this one counted.
#[cycle(read)]
fn branches(alloc: Global, cursor: &mut Cursor, depth: u32) -> Result<Parts, ReadFault>
    ensures found { IfOk result
        (λ value. Begins (SpellsBranches depth) cursor.old.0
        (instrs_view value.first, instrs_view value.second) cursor.new.0) }
    ensures only { IfOk result
        (λ value. BeginsOnly (SpellsBranches depth) cursor.old.0
        (instrs_view value.first, instrs_view value.second) cursor.new.0) }
    ensures malformed { IfErr result (λ e. e ≡ ReadFault.Malformed
        → BeginsNone (SpellsBranches depth) cursor.old.0) }
{
    if depth == 0 {
        return Err(ReadFault::Malformed);
    }
    let inside = body(alloc, cursor, depth - 1)?;
    if inside.end == 0x0b {
        return Ok(Parts {
            first: inside.instrs,
            second: Instrs::new(alloc),
        });
    }
    let second = inner(alloc, cursor, depth)?;
    Ok(Parts {
        first: inside.instrs,
        second,
    })
}

// The instruction whose opcode was read. Up to `depth` blocks stand within one another.
#[cycle(read)]
fn instr(alloc: Global, cursor: &mut Cursor, code: u8, depth: u32) -> Result<Instr, ReadFault>
    ensures found { IfOk result
        (λ value. Begins (SpellsShallow depth) (code ∷ cursor.old.0) (instr_view value) cursor.new.0) }
    ensures only { IfOk result
        (λ value. BeginsOnly (SpellsShallow depth) (code ∷ cursor.old.0) (instr_view value) cursor.new.0) }
    ensures malformed { IfErr result (λ e. e ≡ ReadFault.Malformed
        → BeginsNone (SpellsShallow depth) (code ∷ cursor.old.0)) }
{
    match code {
        0x02 => {
            let kind = block_type(cursor)?;
            let instrs = inner(alloc, cursor, depth)?;
            Ok(Instr::Block(kind, instrs))
        }
        0x03 => {
            let kind = block_type(cursor)?;
            let instrs = inner(alloc, cursor, depth)?;
            Ok(Instr::Loop(kind, instrs))
        }
        0x04 => {
            let kind = block_type(cursor)?;
            let parts = branches(alloc, cursor, depth)?;
            Ok(Instr::If(kind, parts.first, parts.second))
        }
        _ => {
            let plain = leaf(alloc, cursor, code)?;
            Ok(plain)
        }
    }
}
