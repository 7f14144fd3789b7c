// Readers of values at the front of the bytes, and of lists of them.
ghost use Rattle.std.specs.Prelude.{◌≡◌, ◌<◌, ◌≤◌, List, ℕ, length, map, IfOk, OnOk, IfErr};
ghost use Rattle.byte_fields.specs.Front.{Begins, BeginsNone, BeginsOnly};
ghost use Rattle.wasm_values.specs.Spelling.{SpellsEach, SpellsList, SpellsU32};

use byte_fields::{BadLeb, Cursor, Short};
use std::alloc::{AllocError, AllocFailed, Global};

/// Why no value was read.
#[derive(Clone, Copy)]
pub enum ReadFault {
    /// None is spelled at the front.
    Malformed,
    Memory,
}

impl From<AllocError> for ReadFault {
    ghost use Rattle.std.specs.Prelude.{◌≡◌};
    ghost use Rattle.wasm_values.specs.declared.read.ReadFault.TheVariants.{Memory};

    ghost from_gives = { λ _ e. e ≡ Memory };

    fn from(_: AllocError) -> Self {
        ReadFault::Memory
    }
}

impl<T: Drop> From<AllocFailed<T>> for ReadFault {
    ghost use Rattle.std.specs.Prelude.{◌≡◌};
    ghost use Rattle.wasm_values.specs.declared.read.ReadFault.TheVariants.{Memory};

    ghost from_gives = { λ _ e. e ≡ Memory };

    fn from(_: AllocFailed<T>) -> Self {
        ReadFault::Memory
    }
}

impl From<Short> for ReadFault {
    ghost use Rattle.std.specs.Prelude.{◌≡◌};
    ghost use Rattle.wasm_values.specs.declared.read.ReadFault.TheVariants.{Malformed};

    ghost from_gives = { λ _ e. e ≡ Malformed };

    fn from(_: Short) -> Self {
        ReadFault::Malformed
    }
}

impl From<BadLeb> for ReadFault {
    ghost use Rattle.std.specs.Prelude.{◌≡◌};
    ghost use Rattle.wasm_values.specs.declared.read.ReadFault.TheVariants.{Malformed};

    ghost from_gives = { λ _ e. e ≡ Malformed };

    fn from(_: BadLeb) -> Self {
        ReadFault::Malformed
    }
}

/// A way to spell values as bytes.
pub trait Form {
    type Value: Drop;

    ghost Seen: { Type 0 };

    ghost seen: { Self.Value → Seen };

    ghost spells: { List ℕ → Seen → Type 0 };

    /// Reads the value at the front.
    fn read(alloc: Global, cursor: &mut Cursor) -> Result<Self::Value, ReadFault>
        ensures found { IfOk result (λ value. Begins spells cursor.old.0 (seen value) cursor.new.0) }
        ensures only { IfOk result (λ value. BeginsOnly spells cursor.old.0 (seen value) cursor.new.0) }
        ensures malformed { IfErr result (λ e. e ≡ ReadFault.Malformed → BeginsNone spells cursor.old.0) };
}

/// An index, in LEB128.
pub enum Index {}

impl Form for Index {
    type Value = u32;

    ghost use Rattle.std.specs.Prelude.{ℕ};
    ghost use Rattle.wasm_values.specs.Spelling.{SpellsU32};

    ghost Seen = { ℕ };

    ghost seen = { λ value. value };

    ghost spells = { SpellsU32 };

    fn read(_alloc: Global, cursor: &mut Cursor) -> Result<u32, ReadFault> {
        Ok(cursor.leb_u32()?)
    }
}

/// Reads the list at the front: its count, and so many entries.
pub fn entries<F: Form>(alloc: Global, cursor: &mut Cursor) -> Result<Vec<F::Value>, ReadFault>
    ensures found { IfOk result
        (λ list. Begins (SpellsList F.spells) cursor.old.0 (map F.seen list.items) cursor.new.0) }
    ensures only { IfOk result
        (λ list. BeginsOnly (SpellsList F.spells) cursor.old.0 (map F.seen list.items) cursor.new.0) }
    ensures malformed { IfErr result (λ e. e ≡ ReadFault.Malformed
        → BeginsNone (SpellsList F.spells) cursor.old.0) }
{
    let count = cursor.leb_u32()?;
    let mut list = Vec::new(alloc);
    'each: for _ in 0..count {
        let entry = F::read(alloc, cursor)?;
        list.push(entry)?;
    }
    Ok(list)
}
