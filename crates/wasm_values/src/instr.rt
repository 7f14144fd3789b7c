// The tree of instructions: WebAssembly Core 1.0, chapter 2.4, with the instructions on floats as marked
// leaves.
ghost use Rattle.std.specs.Prelude.{◌≡◌, [], ◌∷◌, ◌++◌, length, slice_get, option_copied, OnOk, OnErr};

use crate::entry_lists::{Entries, Indices};
use crate::types::ValType;
use std::alloc::{AllocError as NoMemory, Global};
use std::mem::size_of;

/// The bytes of a constant float as a number, the lowest byte first.
#[derive(Clone, Copy, Debug, PartialEq, Eq)]
pub enum FloatBytes {
    Four(u32),
    Eight(u64),
}

/// An instruction. `op` is an opcode of the binary form, and `align` the power of two that stands there.
///
/// A branch names its block by a label, counted from the innermost block, which is 0.
#[cycle(instr)]
#[derive(Drop)]
pub enum Instr {
    Unreachable,
    Nop,
    Block(Option<ValType>, Instrs),
    Loop(Option<ValType>, Instrs),
    /// With the part that is run where the operand is not 0, and the part where it is 0.
    If(Option<ValType>, Instrs, Instrs),
    Br(u32),
    BrIf(u32),
    /// With the labels by index, and the label for any other index.
    BrTable(Indices, u32),
    Return,
    Call(u32),
    /// With the index of the type that the function must have.
    CallIndirect(u32),
    Drop,
    Select,
    LocalGet(u32),
    LocalSet(u32),
    LocalTee(u32),
    GlobalGet(u32),
    GlobalSet(u32),
    Load { op: u8, align: u32, offset: u32 },
    Store { op: u8, align: u32, offset: u32 },
    MemorySize,
    MemoryGrow,
    I32Const(i32),
    I64Const(i64),
    /// An operation on integers without immediate arguments.
    Numeric(u8),
    FloatMemory { op: u8, align: u32, offset: u32 },
    FloatConst(FloatBytes),
    /// An operation on floats without immediate arguments.
    FloatPlain(u8),
}

/// Instructions, in order, in the room of one pointer.
#[cycle(instr)]
#[derive(Drop)]
pub struct Instrs {
    pub list: Entries<Instr>,
}

impl Instrs {
    /// The empty list. It takes no memory before the first entry.
    pub fn new(alloc: Global) -> Instrs
        ensures { result.list ≡ [] }
    {
        Instrs {
            list: Entries::new(alloc),
        }
    }

    /// The number of instructions, those inside of blocks not counted.
    pub fn len(&self) -> u64
        ensures { result ≡ length self.now.list }
    {
        self.list.len()
    }

    /// The instruction at a place, from 0 on.
    pub fn nth(&self, i: u64) -> Option<&Instr>
        ensures { option_copied result ≡ slice_get self.now.list i }
    {
        self.list.nth(i)
    }

    /// Adds an instruction at the end.
    pub fn push(&mut self, entry: Instr) -> Result<(), NoMemory>
        ensures added { OnOk result (self.new.list ≡ self.old.list ++ entry ∷ []) }
        ensures unchanged { OnErr result (self.new.list ≡ self.old.list) }
    {
        self.list.push(entry)
    }

    /// The whole list.
    pub fn as_slice(&self) -> &[Instr]
        ensures { result.now ≡ self.now.list }
    {
        self.list.as_slice()
    }
}

const _: () = prove!(size_of::<Instr>() <= 32);
