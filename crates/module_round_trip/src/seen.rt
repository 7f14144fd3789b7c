// What the tests see of an instruction, and of a module that is written.
use std::alloc::Global;
use wasm_encode::encode;
use wasm_module::{FloatBytes, Instr, Instrs, ValType, decode};

/// A variant, and its numbers: opcode, alignment and offset, an index, a constant or its bits. A block's
/// are its type and how many instructions it holds.
pub(crate) type Seen = (&'static str, [i64; 3]);

// The value types by their places, and 4 for none.
fn kind_number(kind: Option<ValType>) -> i64 {
    match kind {
        Some(ValType::I32) => 0,
        Some(ValType::I64) => 1,
        Some(ValType::F32) => 2,
        Some(ValType::F64) => 3,
        None => 4,
    }
}

fn one(word: &'static str, number: u32) -> Seen {
    (word, [i64::from(number), 0, 0])
}

fn memory(word: &'static str, op: u8, align: u32, offset: u32) -> Seen {
    (word, [i64::from(op), i64::from(align), i64::from(offset)])
}

pub(crate) fn seen(instr: &Instr) -> Seen {
    match instr {
        Instr::Unreachable => ("Unreachable", [0, 0, 0]),
        Instr::Nop => ("Nop", [0, 0, 0]),
        Instr::Block(kind, body) => ("Block", [kind_number(*kind), count(body), 0]),
        Instr::Loop(kind, body) => ("Loop", [kind_number(*kind), count(body), 0]),
        Instr::If(kind, first, second) => {
            ("If", [kind_number(*kind), count(first), count(second)])
        }
        Instr::Br(label) => one("Br", *label),
        Instr::BrIf(label) => one("BrIf", *label),
        Instr::BrTable(labels, last) => {
            let many = labels.len().min(1_000) as i64;
            ("BrTable", [many, i64::from(*last), 0])
        }
        Instr::Return => ("Return", [0, 0, 0]),
        Instr::Call(func) => one("Call", *func),
        Instr::CallIndirect(kind) => one("CallIndirect", *kind),
        Instr::Drop => ("Drop", [0, 0, 0]),
        Instr::Select => ("Select", [0, 0, 0]),
        Instr::LocalGet(local) => one("LocalGet", *local),
        Instr::LocalSet(local) => one("LocalSet", *local),
        Instr::LocalTee(local) => one("LocalTee", *local),
        Instr::GlobalGet(global) => one("GlobalGet", *global),
        Instr::GlobalSet(global) => one("GlobalSet", *global),
        Instr::Load { op, align, offset } => memory("Load", *op, *align, *offset),
        Instr::Store { op, align, offset } => memory("Store", *op, *align, *offset),
        Instr::MemorySize => ("MemorySize", [0, 0, 0]),
        Instr::MemoryGrow => ("MemoryGrow", [0, 0, 0]),
        Instr::I32Const(number) => ("I32Const", [i64::from(*number), 0, 0]),
        Instr::I64Const(number) => ("I64Const", [*number, 0, 0]),
        Instr::Numeric(op) => ("Numeric", [i64::from(*op), 0, 0]),
        Instr::FloatMemory { op, align, offset } => memory("FloatMemory", *op, *align, *offset),
        Instr::FloatConst(FloatBytes::Four(bits)) => one("FloatFour", *bits),
        Instr::FloatConst(FloatBytes::Eight(bits)) => ("FloatEight", [bits.cast_signed(), 0, 0]),
        Instr::FloatPlain(op) => ("FloatPlain", [i64::from(*op), 0, 0]),
    }
}

fn count(instrs: &Instrs) -> i64 {
    instrs.len().min(1_000) as i64
}

/// Whether there is this instruction alone.
pub(crate) fn is_seen(instrs: &Instrs, row: Seen) -> bool {
    let Some(instr) = instrs.nth(0) else {
        return false;
    };
    instrs.len() == 1 && seen(instr) == row
}

/// Whether the instructions are these.
pub(crate) fn are_seen(instrs: &Instrs, rows: &'static [Seen]) -> bool {
    for (instr, row) in instrs.as_slice().iter().zip(rows) {
        if seen(instr) != *row {
            return false;
        }
    }
    instrs.len() == rows.len() as u64
}

/// Whether these bytes spell a module that is written as them.
pub(crate) fn is_written(alloc: Global, bytes: &[u8]) -> bool {
    let Ok(found) = decode(alloc, bytes) else {
        return false;
    };
    match encode(alloc, &found) {
        Ok(written) => written.as_slice() == bytes,
        Err(_) => false,
    }
}
