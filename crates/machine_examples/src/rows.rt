// Runs a table of modules, and compares what each does with what is said of it.
use crate::recorder::{OFFERED, Recorder};
use std::alloc::Global;
use std::process::Abort;
use std::test::Fail;
use wasm_machine::{Instance, LinkFault, Linked, Machine, Outcome, Trap, link};
use wasm_module::decode;
use wasm_validate::validate;

pub(crate) const FINISHED: i64 = 0;

pub(crate) const SPENT: i64 = 1;

pub(crate) const UNREACHABLE: i64 = 2;

pub(crate) const DIVIDE_BY_ZERO: i64 = 3;

pub(crate) const OVERFLOW: i64 = 4;

pub(crate) const MEMORY_BOUNDS: i64 = 5;

pub(crate) const TABLE_BOUNDS: i64 = 6;

pub(crate) const EMPTY_ENTRY: i64 = 7;

pub(crate) const WRONG_TYPE: i64 = 8;

pub(crate) const CALL_DEPTH: i64 = 9;

pub(crate) const STACK_FULL: i64 = 10;

// The refusals: no loop, the segment of this number, and an import that is not offered.
pub(crate) const NO_LOOP: i64 = 11;

pub(crate) const SEGMENT: i64 = 12;

pub(crate) const IMPORT: i64 = 13;

const OPENING: [u8; 8] = [0x00, 0x61, 0x73, 0x6d, 0x01, 0x00, 0x00, 0x00];

fn trap_code(trap: Trap) -> i64 {
    match trap {
        Trap::Unreachable => UNREACHABLE,
        Trap::DivideByZero => DIVIDE_BY_ZERO,
        Trap::Overflow => OVERFLOW,
        Trap::MemoryBounds => MEMORY_BOUNDS,
        Trap::TableBounds => TABLE_BOUNDS,
        Trap::EmptyEntry => EMPTY_ENTRY,
        Trap::WrongType => WRONG_TYPE,
        Trap::CallDepth => CALL_DEPTH,
        Trap::StackFull => STACK_FULL,
    }
}

// The outcome, and how many instructions were executed.
fn outcome_words(outcome: Outcome) -> [i64; 2] {
    match outcome {
        Outcome::Finished { used } => [FINISHED, used.cast_signed()],
        Outcome::Trapped { used, trap } => [trap_code(trap), used.cast_signed()],
        Outcome::Spent { used } => [SPENT, used.cast_signed()],
    }
}

fn fault_words(fault: LinkFault) -> [i64; 2] {
    match fault {
        LinkFault::NoLoop => [NO_LOOP, 0],
        LinkFault::Segment(place) => [SEGMENT, i64::from(place)],
        _ => [IMPORT, 0],
    }
}

fn joined(alloc: Global, fuel: i64, outcome: [i64; 2], got: &[i64]) -> Result<Vec<i64>, Fail> {
    let mut words = Vec::from_slice(alloc, &[fuel])?;
    words.extend_from_slice(&outcome)?;
    words.extend_from_slice(got)?;
    Ok(words)
}

// What a new instance does with so much fuel: the fuel, the outcome, what is used, and what the host got.
fn run_words(rt: &impl Abort, alloc: Global, linked: &Linked, fuel: i64) -> Result<Vec<i64>, Fail> {
    let mut host = Recorder::new(alloc);
    let mut instance = Instance::new(alloc, linked)?;
    let outcome = instance.run(&mut host, fuel.cast_unsigned());
    assert!(rt; !host.is_short);
    joined(alloc, fuel, outcome_words(outcome), host.got.as_slice())
}

// The same, where a second instance does just what the first did, since each begins anew.
fn words_twice(
    rt: &impl Abort,
    alloc: Global,
    linked: &Linked,
    fuel: i64,
) -> Result<Vec<i64>, Fail> {
    let first = run_words(rt, alloc, linked, fuel)?;
    let second = run_words(rt, alloc, linked, fuel)?;
    assert_eq!(rt; first.as_slice(), second.as_slice());
    Ok(first)
}

fn with_opening(alloc: Global, sections: &[u8]) -> Result<Vec<u8>, Fail> {
    let mut bytes = Vec::from_slice(alloc, &OPENING)?;
    bytes.extend_from_slice(sections)?;
    Ok(bytes)
}

// The module with these sections, linked, or why it doesn't link.
fn linked_of(alloc: Global, sections: &[u8]) -> Result<Result<Linked, LinkFault>, Fail> {
    let bytes = with_opening(alloc, sections)?;
    let Ok(whole) = decode(alloc, &bytes) else {
        return Err(Fail::from("not decoded"));
    };
    let Ok(valid) = validate(alloc, whole) else {
        return Err(Fail::from("not valid"));
    };
    Ok(link(alloc, valid, &OFFERED))
}

// What a module with these sections does, or why it is refused.
fn words_of(rt: &impl Abort, alloc: Global, sections: &[u8], fuel: i64) -> Result<Vec<i64>, Fail> {
    match linked_of(alloc, sections)? {
        Ok(linked) => words_twice(rt, alloc, &linked, fuel),
        Err(fault) => joined(alloc, fuel, fault_words(fault), &[]),
    }
}

/// Runs the module with these sections, the one at this place of a table, with the fuel that the words begin
/// with, and
/// compares the words.
pub(crate) fn does(
    rt: &impl Abort,
    alloc: Global,
    at: usize,
    sections: &[u8],
    said: &[i64],
) -> Result<(), Fail> {
    let fuel = said.first().copied().unwrap_or(0);
    let words = words_of(rt, alloc, sections, fuel)?;
    assert_eq!(rt; words.as_slice(), said, "module {at}");
    Ok(())
}

// A module of a table, with what it does.
#[derive(Drop)]
struct Row<'a> {
    linked: Linked,
    said: &'a [i64],
}

// Runs modules one after the other in one room: each does what it does in its own, whatever the one before it
// left there.
fn do_in_one_room(rt: &impl Abort, alloc: Global, rows: &[Row]) -> Result<(), Fail> {
    let mut machine = Machine::new(alloc)?;
    for (at, row) in rows.iter().enumerate() {
        let fuel = row.said.first().copied().unwrap_or(0);
        let mut host = Recorder::new(alloc);
        let outcome = machine.run(alloc, &row.linked, &mut host, fuel.cast_unsigned())?;
        assert!(rt; !host.is_short);
        let words = joined(alloc, fuel, outcome_words(outcome), host.got.as_slice())?;
        assert_eq!(rt;
            words.as_slice(),
            row.said,
            "module {at} of those that link"
        );
    }
    Ok(())
}

/// Runs each module of a table, alone and behind those before it, and compares what it does with the words at
/// the same place of the other.
pub(crate) fn all_do(
    rt: &impl Abort,
    alloc: Global,
    modules: &[&[u8]],
    results: &[&[i64]],
) -> Result<(), Fail> {
    assert_eq!(rt; modules.len(), results.len());
    let mut rows = Vec::new(alloc);
    for (at, (sections, said)) in modules.iter().zip(results.iter()).enumerate() {
        does(rt, alloc, at, sections, said)?;
        if let Ok(linked) = linked_of(alloc, sections)? {
            rows.push(Row {
                linked,
                said: *said,
            })?;
        }
    }
    do_in_one_room(rt, alloc, rows.as_slice())
}
