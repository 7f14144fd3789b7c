// The tokens with which the players upload.
ghost use Rattle.std.specs.Prelude.{◌≡◌, [], ◌∷◌, ◌++◌, length, slice_get, option_copied, OnOk, OnErr};

use crate::text::Text;
use std::alloc::{AllocError, Global};
use std::marker::Model;

/// A list of players' numbers with their tokens.
#[derive(Drop)]
pub struct Tokens {
    list: Vec<(u32, Text)>,
}

impl Model for Tokens {
    ghost use Rattle.std.specs.Prelude.{List, ℕ};

    ghost Value = { List (ℕ × List ℕ) };

    ghost view = { λ t. t.list.items };
}

impl Tokens {
    /// The empty list. It takes no memory before the first entry.
    pub fn new(alloc: Global) -> Tokens
        ensures { result ≡ [] }
    {
        Tokens {
            list: Vec::new(alloc),
        }
    }

    /// The list of these.
    pub fn of(list: Vec<(u32, Text)>) -> Tokens
        ensures { result ≡ list.items }
    {
        Tokens { list }
    }

    /// The number of players.
    pub fn len(&self) -> u64
        ensures { result ≡ length self.now }
    {
        self.list.len() as u64
    }

    /// The player at a place, from 0 on, with his token.
    pub fn nth(&self, i: u64) -> Option<&(u32, Text)>
        ensures { option_copied result ≡ slice_get self.now i }
    {
        self.list.get(i as usize)
    }

    /// Adds a player at the end.
    pub fn push(&mut self, entry: (u32, Text)) -> Result<(), AllocError>
        ensures ok { OnOk result (self.new ≡ self.old ++ entry ∷ []) }
        ensures err { OnErr result (self.new ≡ self.old) }
    {
        Ok(self.list.push(entry)?)
    }
}
