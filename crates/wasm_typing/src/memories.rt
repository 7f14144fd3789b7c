// The types of loads and stores, and of the other instructions on the memory.
ghost use Rattle.std.specs.Prelude.{◌≡◌, ◌≤◌, ◌^◌, IfOk, option_map};
ghost use Rattle.wasm_values.specs.Syntax.{load as op_load, store as op_store};
ghost use Rattle.wasm_values.specs.Syntax.{memory_size as op_memory_size};
ghost use Rattle.wasm_values.specs.Syntax.{memory_grow as op_memory_grow};
ghost use Rattle.wasm_typing.specs.Typing.{HasMemory};
ghost use Rattle.wasm_typing.specs.Views.{context_view};
ghost use Rattle.wasm_typing.specs.inner.Scopes.{scope_view};
ghost use Rattle.wasm_typing.specs.inner.Tables.{access_view};
ghost use Rattle.wasm_typing.specs.inner.Ranges.{load_by_bounds, store_by_bounds, moves};
ghost use Rattle.wasm_typing.specs.inner.Stands.{Exactly, Checks};

use crate::context::Context;
use crate::operands::Operands;
use crate::scope::Scope;
use std::alloc::AllocError;
use wasm_module::ValType;

/// The type of a value that is loaded or stored, and the power of two that is the count of its bytes in the
/// memory.
#[derive(Clone, Copy)]
pub(crate) struct Move {
    pub value: ValType,
    pub power: u32,
}

// What the load of an opcode moves.
#[tactic(auto, unfolding(crate::specs::inner::Ranges::load_by_bounds))]
fn load_access(op: u8) -> Option<Move>
    ensures { option_map access_view result ≡ load_by_bounds op }
{
    match op {
        0x28 => access(ValType::I32, 2),
        0x29 => access(ValType::I64, 3),
        0x2c..=0x2d => access(ValType::I32, 0),
        0x2e..=0x2f => access(ValType::I32, 1),
        0x30..=0x31 => access(ValType::I64, 0),
        0x32..=0x33 => access(ValType::I64, 1),
        0x34..=0x35 => access(ValType::I64, 2),
        _ => None,
    }
}

// What the store of an opcode moves.
#[tactic(auto, unfolding(crate::specs::inner::Ranges::store_by_bounds))]
fn store_access(op: u8) -> Option<Move>
    ensures { option_map access_view result ≡ store_by_bounds op }
{
    match op {
        0x36 => access(ValType::I32, 2),
        0x37 => access(ValType::I64, 3),
        0x3a => access(ValType::I32, 0),
        0x3b => access(ValType::I32, 1),
        0x3c => access(ValType::I64, 0),
        0x3d => access(ValType::I64, 1),
        0x3e => access(ValType::I64, 2),
        _ => None,
    }
}

fn access(value: ValType, power: u32) -> Option<Move>
    ensures { option_map access_view result ≡ moves value (2 ^ power) }
{
    Some(Move { value, power })
}

fn has_memory(context: &Context) -> bool
    ensures { Exactly (HasMemory (context_view context.now)) result }
{
    !context.memories.is_empty()
}

// Whether there is a memory, and the alignment is at most the bytes that are moved.
fn allows(context: &Context, access: Move, align: u32) -> bool
    ensures { Exactly
        (HasMemory (context_view context.now) × (2 ^ align ≤ (access_view access).bytes)) result }
{
    has_memory(context) && align <= access.power
}

pub(crate) fn load(
    scope: &Scope,
    operands: &mut Operands,
    op: u8,
    align: u32,
) -> Result<bool, AllocError>
    ensures { IfOk result (λ b. (labels offset : _)
        → Checks (scope_view scope.now) labels (op_load op align offset) operands.old operands.new b) }
{
    let Some(access) = load_access(op) else {
        return Ok(false);
    };
    if !allows(scope.context, access, align) {
        return Ok(false);
    }
    operands.apply(&[ValType::I32], Some(access.value))
}

pub(crate) fn store(
    scope: &Scope,
    operands: &mut Operands,
    op: u8,
    align: u32,
) -> Result<bool, AllocError>
    ensures { IfOk result (λ b. (labels offset : _)
        → Checks (scope_view scope.now) labels (op_store op align offset) operands.old operands.new b) }
{
    let Some(access) = store_access(op) else {
        return Ok(false);
    };
    if !allows(scope.context, access, align) {
        return Ok(false);
    }
    operands.apply(&[ValType::I32, access.value], None)
}

pub(crate) fn memory_size(scope: &Scope, operands: &mut Operands) -> Result<bool, AllocError>
    ensures { IfOk result (λ b. (labels : _)
        → Checks (scope_view scope.now) labels op_memory_size operands.old operands.new b) }
{
    if !has_memory(scope.context) {
        return Ok(false);
    }
    operands.apply(&[], Some(ValType::I32))
}

pub(crate) fn memory_grow(scope: &Scope, operands: &mut Operands) -> Result<bool, AllocError>
    ensures { IfOk result (λ b. (labels : _)
        → Checks (scope_view scope.now) labels op_memory_grow operands.old operands.new b) }
{
    if !has_memory(scope.context) {
        return Ok(false);
    }
    operands.apply(&[ValType::I32], Some(ValType::I32))
}
