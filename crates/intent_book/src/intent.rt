// What a player wants of a tick, and lists of it.
ghost use Rattle.std.specs.Prelude.{◌≡◌, ◌↔◌, IsTrue, [], ◌∷◌, ◌++◌, length, slice_get, option_copied, OnOk};
ghost use Rattle.std.specs.Prelude.{OnErr};
ghost use Rattle.intent_book.specs.Records.{place};

use game_tables::{Action, Body};
use std::alloc::{AllocError as NoMemory, Global};
use std::marker::Model;

/// One thing that a player wants done in a tick.
///
/// An action reads the target, the amount and the body only where it needs them.
#[derive(Clone, Copy)]
pub struct Intent {
    /// 1 to 2^32 - 1.
    pub player: u32,
    pub action: Action,
    /// The id of the object that is to act.
    pub actor: u64,
    pub target: u64,
    pub amount: u64,
    pub body: Body,
}

impl Intent {
    // Where it stands in a record: under the number of its action, and its actor.
    pub(crate) fn place(&self) -> (u8, u64)
        ensures { result ≡ place self.now }
    {
        (self.action.number(), self.actor)
    }
}

/// A list of intents.
#[derive(Drop)]
pub struct Intents {
    list: Vec<Intent>,
}

impl Model for Intents {
    ghost use Rattle.std.specs.Prelude.{List};
    ghost use Rattle.intent_book.specs.declared.intent.Intent.{Intent};

    ghost Value = { List Intent };

    ghost view = { λ intents. intents.list.items };
}

impl Intents {
    /// The empty list. It takes no memory before the first intent.
    pub fn new(alloc: Global) -> Intents
        ensures { result ≡ [] }
    {
        Intents {
            list: Vec::new(alloc),
        }
    }

    // The list of these intents.
    pub(crate) fn of(list: Vec<Intent>) -> Intents
        ensures { result ≡ list.items }
    {
        Intents { list }
    }

    /// The number of intents.
    pub fn len(&self) -> u64
        ensures { result ≡ length self.now }
    {
        self.list.len() as u64
    }

    pub fn is_empty(&self) -> bool
        ensures { IsTrue result ↔ (self.now ≡ []) }
    {
        self.list.is_empty()
    }

    /// The intent at a place, from 0 on.
    pub fn nth(&self, i: u64) -> Option<&Intent>
        ensures { option_copied result ≡ slice_get self.now i }
    {
        self.list.get(i as usize)
    }

    /// Adds an intent at the end.
    pub fn push(&mut self, entry: Intent) -> Result<(), NoMemory>
        ensures ok { OnOk result (self.new ≡ self.old ++ entry ∷ []) }
        ensures err { OnErr result (self.new ≡ self.old) }
    {
        Ok(self.list.push(entry)?)
    }

    /// The whole list.
    pub fn as_slice(&self) -> &[Intent]
        ensures { result.now ≡ self.now }
    {
        &self.list
    }
}
