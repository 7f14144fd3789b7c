// The instructions on the memory.
ghost use Rattle.std.specs.Prelude.{◌≡◌, ◌+◌, ◌^◌, ◌<◌, ◌≤◌, IfSome, MatchOption, length};
ghost use Rattle.std.specs.Prelude.{option_map};
ghost use Rattle.wasm_values.specs.Syntax.{load as op_load, store as op_store};
ghost use Rattle.wasm_values.specs.Syntax.{memory_size as op_memory_size};
ghost use Rattle.wasm_values.specs.Syntax.{memory_grow as op_memory_grow};
ghost use Rattle.wasm_typing.specs.Operations.{Access, load_of, store_of};
ghost use Rattle.wasm_store.specs.Bytes.{IsWidth, le_number};
ghost use Rattle.wasm_store.specs.Memory.{span};
ghost use Rattle.wasm_steps.specs.Program.{Store};
ghost use Rattle.wasm_steps.specs.Plain.{loaded, signed_32, signed_64};
ghost use Rattle.wasm_soundness.specs.Typed.{IsValue};
ghost use Rattle.wasm_stack.specs.Standing.{held};
ghost use Rattle.wasm_plain.specs.Done.{IsNext, IsDone, IsRun};

use wasm_stack::Stack;
use wasm_steps::Trap;
use wasm_store::Pages;

// -1 as an i32: the answer of a growth that is refused.
const REFUSED: u32 = 0xffff_ffff;

/// Runs a load: WebAssembly Core 1.0, chapter 4.4.4. The value goes in the place of the address. It traps
/// with
/// `MemoryBounds` where the bytes pass the memory's end.
#[inline]
pub fn load(
    stack: &mut Stack<'_>,
    pages: &Pages,
    op: u8,
    align: u32,
    offset: u32,
) -> Result<(), Trap>
    requires { (store : Store) × (store.memory ≡ pages.now) × IsNext (op_load op align offset)
        (held stack.old) store }
    ensures { (store : Store) → store.memory ≡ pages.now
        → IsRun (op_load op align offset) (held stack.old) store result (held stack.new) store }
{
    let address = stack.operand(0) + u64::from(offset);
    let Some(value) = value_at(pages, op, address) else {
        return Err(Trap::MemoryBounds);
    };
    stack.replace(1, value);
    Ok(())
}

// What the load of an opcode makes of the bytes at an address, or `None` where they pass the end.
#[inline]
fn value_at(pages: &Pages, op: u8, address: u64) -> Option<u64>
    requires { (access : Access) × (load_of op ≡ Some access) }
    ensures { (access : Access) → load_of op ≡ Some access
        → MatchOption result (length pages.now.bytes < address + access.bytes)
        (λ value. (address + access.bytes ≤ length pages.now.bytes)
        × (value ≡ loaded access (le_number (span pages.now address access.bytes)))
        × IsValue access.value value) }
{
    match op {
        0x28 | 0x35 => pages.load(address, 4),
        0x29 => pages.load(address, 8),
        0x2d | 0x31 => pages.load(address, 1),
        0x2f | 0x33 => pages.load(address, 2),
        0x2c => signed_8_as_32(pages.load(address, 1)),
        0x2e => signed_16_as_32(pages.load(address, 2)),
        0x30 => signed_8_as_64(pages.load(address, 1)),
        0x32 => signed_16_as_64(pages.load(address, 2)),
        _ => signed_32_as_64(pages.load(address, 4)),
    }
}

// A number of 8 bits with its sign carried on to an i32.
#[inline]
fn signed_8_as_32(found: Option<u64>) -> Option<u64>
    requires { IfSome found (λ number. number < 2 ^ 8) }
    ensures { result ≡ option_map (signed_32 1) found }
{
    let byte = found? as u8;
    Some(u64::from(i32::from(byte.cast_signed()).cast_unsigned()))
}

// A number of 16 bits with its sign carried on to an i32.
#[inline]
fn signed_16_as_32(found: Option<u64>) -> Option<u64>
    requires { IfSome found (λ number. number < 2 ^ 16) }
    ensures { result ≡ option_map (signed_32 2) found }
{
    let short = found? as u16;
    Some(u64::from(i32::from(short.cast_signed()).cast_unsigned()))
}

// A number of 8 bits with its sign carried on to an i64.
#[inline]
fn signed_8_as_64(found: Option<u64>) -> Option<u64>
    requires { IfSome found (λ number. number < 2 ^ 8) }
    ensures { result ≡ option_map (signed_64 1) found }
{
    let byte = found? as u8;
    Some(i64::from(byte.cast_signed()).cast_unsigned())
}

// A number of 16 bits with its sign carried on to an i64.
#[inline]
fn signed_16_as_64(found: Option<u64>) -> Option<u64>
    requires { IfSome found (λ number. number < 2 ^ 16) }
    ensures { result ≡ option_map (signed_64 2) found }
{
    let short = found? as u16;
    Some(i64::from(short.cast_signed()).cast_unsigned())
}

// A number of 32 bits with its sign carried on to an i64.
#[inline]
fn signed_32_as_64(found: Option<u64>) -> Option<u64>
    requires { IfSome found (λ number. number < 2 ^ 32) }
    ensures { result ≡ option_map (signed_64 4) found }
{
    let word = found? as u32;
    Some(i64::from(word.cast_signed()).cast_unsigned())
}

/// Runs a store: WebAssembly Core 1.0, chapter 4.4.4. It takes the value and the address below it. It traps
/// with
/// `MemoryBounds` where the bytes pass the memory's end.
#[inline]
pub fn store(
    stack: &mut Stack<'_>,
    pages: &mut Pages,
    op: u8,
    align: u32,
    offset: u32,
) -> Result<(), Trap>
    requires { (store : Store) × (store.memory ≡ pages.old) × IsNext (op_store op align offset)
        (held stack.old) store }
    ensures { (store : Store) → store.memory ≡ pages.old
        → IsRun (op_store op align offset) (held stack.old) store result (held stack.new)
        (record store { memory = pages.new }) }
{
    let value = stack.operand(0);
    let address = stack.operand(1) + u64::from(offset);
    if !pages.store(address, stored_width(op), value) {
        return Err(Trap::MemoryBounds);
    }
    stack.discard(2);
    Ok(())
}

// How many bytes the store of an opcode writes.
#[inline]
fn stored_width(op: u8) -> u8
    requires { (access : Access) × (store_of op ≡ Some access) }
    ensures access { (access : Access) → store_of op ≡ Some access → result ≡ access.bytes }
    ensures width { IsWidth result }
{
    match op {
        0x3a | 0x3c => 1,
        0x3b | 0x3d => 2,
        0x36 | 0x3e => 4,
        _ => 8,
    }
}

/// Pushes the size of the memory in pages: `memory.size` of WebAssembly Core 1.0, chapter 4.4.4. It traps
/// with
/// `StackFull` where the stack has no room.
#[inline]
pub fn memory_size(stack: &mut Stack<'_>, pages: &Pages) -> Result<(), Trap>
    requires { (store : Store) × (store.memory ≡ pages.now) × IsNext op_memory_size (held stack.old) store }
    ensures { (store : Store) → store.memory ≡ pages.now
        → IsRun op_memory_size (held stack.old) store result (held stack.new) store }
{
    if !stack.push(u64::from(pages.size())) {
        return Err(Trap::StackFull);
    }
    Ok(())
}

/// Grows the memory by so many pages, and gives its size before, or -1 where it may not grow so far:
/// `memory.grow` of WebAssembly Core 1.0,
/// chapter 4.4.4. It never traps.
#[inline]
pub fn memory_grow(stack: &mut Stack<'_>, pages: &mut Pages)
    requires { (store : Store) × (store.memory ≡ pages.old) × IsNext op_memory_grow (held stack.old) store }
    ensures { (store : Store) → store.memory ≡ pages.old
        → IsDone op_memory_grow (held stack.old) store (held stack.new)
        (record store { memory = pages.new }) }
{
    let by = stack.operand(0) as u32;
    let answer = pages.grow(by).unwrap_or(REFUSED);
    stack.replace(1, u64::from(answer));
}
