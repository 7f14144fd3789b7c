// Writers of values to the end of bytes, and of lists of them.
ghost use Rattle.std.specs.Prelude.{◌≡◌, ℕ, List, map, OnOk};
ghost use Rattle.wasm_encode.specs.inner.Gains.{Gains, IsSpelled};
ghost use Rattle.wasm_values.specs.Spelling.{SpellsEach, SpellsList};

use crate::NoMemory;
use byte_fields::put_leb_u32;
use std::alloc::Global;

/// A way to spell values as bytes, which writes the shortest spelling.
pub(crate) trait Written {
    type Value;

    ghost Seen: { Type 0 };

    ghost seen: { Self.Value → Seen };

    ghost spells: { List ℕ → Seen → Type 0 };

    /// Writes the value behind the bytes.
    fn put(alloc: Global, out: &mut Vec<u8>, value: &Self::Value) -> Result<(), NoMemory>
        requires { IsSpelled spells (seen value.now) }
        ensures { OnOk result (Gains spells (seen value.now) out.old.items out.new.items) };
}

/// Writes entries, one behind the other.
pub(crate) fn put_entries<W: Written>(
    alloc: Global,
    out: &mut Vec<u8>,
    list: &[W::Value],
) -> Result<(), NoMemory>
    requires { IsSpelled (SpellsEach W.spells) (map W.seen list.now) }
    ensures { OnOk result (Gains (SpellsEach W.spells) (map W.seen list.now) out.old.items out.new.items) }
{
    'each: for value in list {
        W::put(alloc, out, value)?;
    }
    Ok(())
}

/// Writes a list: the count of its entries, and the entries.
pub(crate) fn put_list<W: Written>(
    alloc: Global,
    out: &mut Vec<u8>,
    list: &[W::Value],
) -> Result<(), NoMemory>
    requires { IsSpelled (SpellsList W.spells) (map W.seen list.now) }
    ensures { OnOk result (Gains (SpellsList W.spells) (map W.seen list.now) out.old.items out.new.items) }
{
    put_leb_u32(out, list.len() as u32)?;
    put_entries::<W>(alloc, out, list)
}

/// An index, in LEB128.
pub(crate) enum IndexEntry {}

impl Written for IndexEntry {
    type Value = u32;

    ghost use Rattle.std.specs.Prelude.{ℕ};
    ghost use Rattle.wasm_values.specs.Spelling.{SpellsU32};

    ghost Seen = { ℕ };

    ghost seen = { λ value. value };

    ghost spells = { SpellsU32 };

    fn put(_alloc: Global, out: &mut Vec<u8>, value: &u32) -> Result<(), NoMemory> {
        put_leb_u32(out, *value)
    }
}
