// A table of functions.
ghost use Rattle.std.specs.Prelude.{◌≡◌, ◌+◌, ◌<◌, ◌≤◌, ◌↔◌, IfOk, IsTrue, IsNone, false, None, Some, length};
ghost use Rattle.std.specs.Prelude.{replicate, slice_get, slice_set};
ghost use Rattle.wasm_store.specs.Tables.{with_entries};

use std::alloc::{AllocError, Global};
use std::marker::Model;

/// A table whose entries are empty or name a function by its index.
#[derive(Drop)]
pub struct FuncTable {
    entries: Vec<Option<u32>>,
}

impl Model for FuncTable {
    ghost use Rattle.std.specs.Prelude.{List, Option, ℕ};

    ghost Value = { List (Option ℕ) };

    ghost view = { λ t. t.entries.items };
}

impl FuncTable {
    /// So many entries, each empty.
    pub fn new(alloc: Global, n: u32) -> Result<FuncTable, AllocError>
        ensures { IfOk result (λ t. t ≡ replicate n None) }
    {
        let mut entries = Vec::new(alloc);
        entries.resize(n as usize, None)?;
        Ok(FuncTable { entries })
    }

    /// The entry, which may be empty, or `None` past the table's end.
    #[inline]
    pub fn get(&self, i: u32) -> Option<Option<u32>>
        ensures entry { result ≡ slice_get self.now i }
        ensures range { IsNone result ↔ (length self.now ≤ i) }
    {
        self.entries.get(i as usize).copied()
    }

    /// Writes entries from `at` on, and answers whether they are within the end. Nothing is changed where
    /// they pass it.
    pub fn write_span(&mut self, at: u32, entries: &[Option<u32>]) -> bool
        ensures range { IsTrue result ↔ (at + length entries.now ≤ length self.old) }
        ensures written { IsTrue result → self.new ≡ with_entries self.old at entries.now }
        ensures unchanged { result ≡ false → self.new ≡ self.old }
    {
        let from = at as usize;
        if from > self.entries.len() || entries.len() > self.entries.len() - from {
            return false;
        }
        self.entries[from..from + entries.len()].copy_from_slice(entries);
        true
    }

    /// Whether there is such an entry. It names that function then.
    #[inline]
    pub fn set(&mut self, i: u32, func: u32) -> bool
        ensures range { IsTrue result ↔ (i < length self.old) }
        ensures entry { IsTrue result → self.new ≡ slice_set self.old i (Some func) }
        ensures unchanged { result ≡ false → self.new ≡ self.old }
    {
        match self.entries.get_mut(i as usize) {
            Some(entry) => {
                *entry = Some(func);
                true
            }
            None => false,
        }
    }
}
