// The labels of the open blocks.
ghost use Rattle.std.specs.Prelude.{◌≡◌, List, [], ◌∷◌, drop, slice_get, OnOk};

use std::alloc::{AllocError, Global};
use std::marker::Model;
use wasm_module::ValType;

/// What the label of each open block takes. Contracts see the innermost first.
#[derive(Drop)]
pub(crate) struct Labels {
    kinds: Vec<Option<ValType>>,
}

impl Model for Labels {
    ghost use Rattle.std.specs.Prelude.{List, reverse, Option};
    ghost use Rattle.wasm_values.specs.declared.types.ValType.{ValType};

    ghost Value = { List (Option ValType) };

    ghost view = { λ labels. reverse labels.kinds.items };
}

impl Labels {
    /// No labels. It takes no memory.
    pub fn new(alloc: Global) -> Labels
        ensures { result ≡ [] }
    {
        Labels {
            kinds: Vec::new(alloc),
        }
    }

    /// Forgets all labels, and keeps the room for them.
    pub fn clear(&mut self)
        ensures { self.new ≡ [] }
    {
        self.kinds.clear();
    }

    /// What a label takes, counted from the innermost block.
    pub fn get(&self, label: u32) -> Option<Option<ValType>>
        ensures { result ≡ slice_get self.now label }
    {
        let count = self.kinds.len();
        let label = label as usize;
        if label >= count {
            return None;
        }
        Some(self.kinds[count - 1 - label])
    }

    pub fn push(&mut self, kind: Option<ValType>) -> Result<(), AllocError>
        ensures { OnOk result (self.new ≡ kind ∷ self.old) }
    {
        self.kinds.push(kind)?;
        Ok(())
    }

    pub fn pop(&mut self)
        ensures { self.new ≡ drop 1 self.old }
    {
        let _ = self.kinds.pop();
    }
}
