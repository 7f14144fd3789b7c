// The record of what one player wants of a tick.
ghost use Rattle.std.specs.Prelude.{◌≡◌, ◌≤◌, ◌↔◌, IsTrue, [], length, IfOk, if◌then◌else◌, slice_get};
ghost use Rattle.std.specs.Prelude.{option_copied, IsPermutation, IsSortedByKey};
ghost use Rattle.std.specs.List.{IsDistinct, list_any};
ghost use Rattle.game_tables.specs.Actions.{action_number};
ghost use Rattle.intent_book.specs.Records.{AreOf, accepts, entries_bound, place, place_eq, place_cmp};
ghost use Rattle.intent_book.specs.Records.{put_last, same_place};

use crate::entries::{Entries, Kept, arranged, fresh, keep, next_kept};
use crate::intent::{Intent, Intents};
use game_tables::Action;
use indexmap::IndexMap;
use std::alloc::{AllocError as NoMemory, Global};
use std::marker::Model;

/// The most entries of a record.
pub fn most_entries() -> u32
    ensures { result ≡ entries_bound }
{
    4_096
}

/// A player's intents in the order in which he last asked for them, no two of one action and actor.
///
/// All memory is taken when it is made. Each entry has a number that rises with every put, and the
/// list is the entries by their numbers, so a put moves no entry.
pub struct Recorded {
    player: u32,
    next: u64,
    entries: Entries,
    canonical: Vec<Intent>,
}

impl Drop for Recorded {
    fn drop(self) {
        let Recorded {
            player: _,
            next: _,
            entries: _,
            canonical: _,
        } = self;
    }
}

impl Model for Recorded {
    ghost use Rattle.intent_book.specs.Records.{Record};

    ghost Value = { Record };

    ghost use Rattle.intent_book.specs.inner.Held.{record_of, IsHeld};

    ghost view = { record_of };

    ghost invariant = { IsHeld };
}

impl Recorded {
    /// A player's record with no entry yet, and all the memory that it will ever need.
    pub fn reserve(alloc: Global, player: u32) -> Result<Recorded, NoMemory>
        ensures { IfOk result (λ r. r ≡ record { player = player; entries = [] }) }
    {
        let most = most_entries() as usize;
        let entries = IndexMap::with_capacity(alloc, most)?;
        let canonical = Vec::with_capacity(alloc, most)?;
        Ok(Recorded {
            player,
            next: 0,
            entries,
            canonical,
        })
    }

    /// Makes it a player's record with no entry, in the room that it has.
    pub fn clear(&mut self, player: u32)
        ensures { self.new ≡ record { player = player; entries = [] } }
    {
        self.player = player;
        self.next = 0;
        self.entries.clear();
    }

    /// Whose record it is.
    pub fn player(&self) -> u32
        ensures { result ≡ self.now.player }
    {
        self.player
    }

    /// Takes out the entry of the same action and actor, where there is one, and adds the new one at
    /// the end. It changes nothing, and answers false, exactly where the record is full and no entry
    /// has that action and actor. It takes no memory.
    pub fn put(&mut self, intent: Intent) -> bool
        requires own { intent.player ≡ self.old.player }
        ensures answer { result ≡ accepts self.old.entries intent }
        ensures record { self.new
            ≡ record self.old {
              entries = (if result then put_last self.old.entries intent
                  else self.old.entries);
            } }
    {
        let order = fresh(&mut self.entries, self.next);
        self.next = order;
        if !keep(&mut self.entries, Kept { order, intent }) {
            return false;
        }
        self.next = order + 1;
        true
    }

    /// Whether there is an entry of this action and actor.
    pub fn holds(&self, action: Action, actor: u64) -> bool
        ensures { result
            ≡ list_any (λ entry. place_eq (action_number action, actor) (place entry)) self.now.entries }
    {
        self.entries
            .get_index_of(&(action.number(), actor))
            .is_some()
    }

    /// The number of entries.
    pub fn len(&self) -> u32
        ensures len { result ≡ length self.now.entries }
        ensures most { result ≤ entries_bound }
        ensures distinct { IsDistinct same_place self.now.entries }
        ensures own { AreOf self.now.player self.now.entries }
    {
        self.entries.len() as u32
    }

    /// Whether there is no entry.
    pub fn is_empty(&self) -> bool
        ensures { IsTrue result ↔ (self.now.entries ≡ []) }
    {
        self.len() == 0
    }

    /// The entry at a place, from 0 on. It looks through all entries, of which there are up to 4,096,
    /// once for each place up to this one: the calls of players don't ask it.
    pub fn nth(&self, i: u32) -> Option<&Intent>
        ensures { option_copied result ≡ slice_get self.now.entries i }
    {
        let mut from = 0;
        for _done in 0..i {
            match next_kept(&self.entries, from) {
                Some((_, kept)) => from = kept.order + 1,
                None => return None,
            }
        }
        match next_kept(&self.entries, from) {
            Some((at, _)) => match self.entries.get_index(at) {
                Some((_, kept)) => Some(&kept.intent),
                None => None,
            },
            None => None,
        }
    }

    /// The entries by action and then by actor. It takes no memory.
    pub fn into_canonical(self) -> Intents
        ensures same { IsPermutation self.entries result }
        ensures sorted { IsSortedByKey place place_cmp result }
        ensures distinct { IsDistinct same_place result }
        ensures own { AreOf self.player result }
        ensures most { length result ≤ entries_bound }
    {
        let Recorded {
            player: _,
            next: _,
            entries,
            canonical,
        } = self;
        arranged(&entries, canonical)
    }

    /// The entries by action and then by actor, in a list that has room for no more.
    pub fn canonical(&self, alloc: Global) -> Result<Intents, NoMemory>
        ensures same { IfOk result (IsPermutation self.now.entries) }
        ensures sorted { IfOk result (IsSortedByKey place place_cmp) }
        ensures distinct { IfOk result (IsDistinct same_place) }
        ensures own { IfOk result (AreOf self.now.player) }
        ensures most { IfOk result (λ list. length list ≤ entries_bound) }
    {
        let room = Vec::with_capacity(alloc, self.entries.len())?;
        Ok(arranged(&self.entries, room))
    }
}
