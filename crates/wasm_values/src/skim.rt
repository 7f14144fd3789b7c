// The reader that passes over expressions, however deep they nest, and keeps nothing of them.
ghost use Rattle.std.specs.Prelude.{◌≡◌, ◌<◌, List, ℕ, ◌∷◌, length, reverse, IfOk, OnOk, IfErr};
ghost use Rattle.byte_fields.specs.Front.{Begins, BeginsNone, BeginsOnly};
ghost use Rattle.wasm_values.specs.inner.Skimmed.{SpellsSome};
ghost use Rattle.wasm_values.specs.inner.Opens.{ClosesAlike, ClosesBefore, after, opens};
ghost use Rattle.wasm_values.specs.declared.skim.Open.{Open};

use crate::fields::block_type;
use crate::leaves::leaf;
use crate::read::ReadFault;
use byte_fields::Cursor;
use std::alloc::{AllocError, Global};

// What is open, and how it ends.
#[derive(Clone, Copy)]
enum Open {
    // A block, a loop, the second part of an `if` or the expression itself: it ends at 0B.
    Block,
    // The first part of an `if`: 0B ends the `if`, and 05 begins its second part.
    First,
}

// What was read, by what it does to the blocks that are open.
#[derive(Clone, Copy)]
enum Turn {
    // The end of the innermost.
    End,
    // The end of the first part of an `if`.
    Else,
    // The begin of a block inside of the innermost.
    Begin(Open),
    // An instruction that holds no others.
    Pass,
}

// Reads the opcode of an instruction that holds others and its type, or a whole instruction of
// another kind, or the byte behind instructions.
fn read_turn(alloc: Global, cursor: &mut Cursor, top: Open) -> Result<Turn, ReadFault>
    ensures alike { IfOk result (λ turn. (outer : List Open)
        → ClosesAlike (top ∷ outer) cursor.old.0 (after turn top outer) cursor.new.0) }
    ensures shorter { OnOk result (length cursor.new.0 < length cursor.old.0) }
    ensures malformed { IfErr result (λ e. e ≡ ReadFault.Malformed → (outer : List Open) (rest : List ℕ)
        → ClosesBefore (top ∷ outer) cursor.old.0 rest → ⊥) }
{
    let code = cursor.u8()?;
    match code {
        0x0b => Ok(Turn::End),
        0x05 => match top {
            Open::Block => Err(ReadFault::Malformed),
            Open::First => Ok(Turn::Else),
        },
        0x02 | 0x03 => {
            let _kind = block_type(cursor)?;
            Ok(Turn::Begin(Open::Block))
        }
        0x04 => {
            let _kind = block_type(cursor)?;
            Ok(Turn::Begin(Open::First))
        }
        _ => {
            let _plain = leaf(alloc, cursor, code)?;
            Ok(Turn::Pass)
        }
    }
}

// Takes a turn: the innermost of the blocks that are open then, if there is one, with those around
// it in `outer`.
fn follow(turn: Turn, top: Open, outer: &mut Vec<Open>) -> Result<Option<Open>, AllocError>
    ensures { IfOk result (λ next. opens next outer.new.items ≡ after turn top (reverse outer.old.items)) }
{
    match turn {
        Turn::End => Ok(outer.pop()),
        Turn::Else => Ok(Some(Open::Block)),
        Turn::Begin(inner) => {
            outer.push(top)?;
            Ok(Some(inner))
        }
        Turn::Pass => Ok(Some(top)),
    }
}

/// Passes over the expression at the front, however deep it nests. It takes memory for each block
/// that is open, and no machine stack.
pub fn skim_expression(alloc: Global, cursor: &mut Cursor) -> Result<(), ReadFault>
    ensures found { OnOk result (Begins SpellsSome cursor.old.0 tt cursor.new.0) }
    ensures only { OnOk result (BeginsOnly SpellsSome cursor.old.0 tt cursor.new.0) }
    ensures malformed { IfErr result (λ e. e ≡ ReadFault.Malformed → BeginsNone SpellsSome cursor.old.0) }
{
    let mut outer = Vec::new(alloc);
    let mut next = Some(Open::Block);
    'each: while let Some(top) = next {
        let turn = read_turn(alloc, cursor, top)?;
        next = follow(turn, top, &mut outer)?;
    }
    Ok(())
}
