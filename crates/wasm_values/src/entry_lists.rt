// Lists of entries.
ghost use Rattle.std.specs.Prelude.{◌≡◌, [], ◌∷◌, ◌++◌, length, slice_get, option_copied, IfOk, OnOk, OnErr};

use optional_box::OptionalBox;
use std::alloc::{AllocError as NoMemory, Global};
use std::marker::Model;

/// Entries in the order of the binary form, in the room of one pointer. Contracts see the list of them.
#[derive(Drop)]
pub struct Entries<E> {
    list: OptionalBox<Vec<E>>,
}

/// Indices, of functions, types or labels.
pub type Indices = Entries<u32>;

/// A name: its bytes, which are UTF-8 in a module that was decoded.
pub type Name = Entries<u8>;

/// The bytes of a data segment.
pub type Blob = Entries<u8>;

impl<E> Model for Entries<E> {
    ghost use Rattle.std.specs.Prelude.{List};
    ghost use Rattle.wasm_values.specs.inner.Listed.{listed};

    ghost Value = { List E };

    ghost view = { λ entries. listed entries.list };
}

impl<E> Entries<E> {
    /// The empty list. It takes no memory before the first entry.
    pub fn new(alloc: Global) -> Entries<E>
        ensures { result ≡ [] }
    {
        Entries {
            list: OptionalBox::none(alloc),
        }
    }

    /// The list of a vector's entries, without the room that the vector holds beyond them.
    pub fn of(mut list: Vec<E>) -> Result<Entries<E>, NoMemory>
    where
        E: Drop,
        ensures { IfOk result (λ entries. entries ≡ list.items) }
    {
        let alloc = *list.allocator();
        if list.is_empty() {
            return Ok(Entries::new(alloc));
        }
        list.shrink_to_fit();
        Ok(Entries {
            list: OptionalBox::of(Box::new(alloc, list)?),
        })
    }

    /// The number of entries.
    pub fn len(&self) -> u64
        ensures { result ≡ length self.now }
    {
        match self.list.get() {
            Some(list) => list.len() as u64,
            None => 0,
        }
    }

    /// The entry at a place, from 0 on.
    pub fn nth(&self, i: u64) -> Option<&E>
        ensures { option_copied result ≡ slice_get self.now i }
    {
        self.as_slice().get(i as usize)
    }

    /// Adds an entry at the end.
    pub fn push(&mut self, entry: E) -> Result<(), NoMemory>
    where
        E: Drop,
        ensures added { OnOk result (self.new ≡ self.old ++ entry ∷ []) }
        ensures unchanged { OnErr result (self.new ≡ self.old) }
    {
        let alloc = self.list.allocator();
        let mut list = match self.list.take() {
            Some(list) => list,
            None => Box::new(alloc, Vec::new(alloc))?,
        };
        let pushed = list.push(entry);
        self.list = OptionalBox::of(list);
        Ok(pushed?)
    }

    /// The whole list.
    pub fn as_slice(&self) -> &[E]
        ensures { result.now ≡ self.now }
    {
        match self.list.get() {
            Some(list) => list,
            None => &[],
        }
    }
}
