// A record with the counts that the calls for controllers and sites ask.
ghost use Rattle.std.specs.Prelude.{◌≡◌, ◌≤◌, ◌<◌, [], ◌∷◌, ◌++◌, length, vec_capacity, IfOk, if◌then◌else◌};
ghost use Rattle.std.specs.List.{filter};
ghost use Rattle.game_tables.specs.declared.action.Action.TheVariants.{ClaimController, CreateSite};
ghost use Rattle.intent_book.specs.Records.{accepts, entries_bound, put_last};
ghost use Rattle.counted_record.specs.Others.{others_of, others_in};
ghost use Rattle.counted_record.specs.inner.Planned.{is_apart, is_beside};

use game_tables::Action;
use intent_book::{Intent, Recorded, most_entries};
use std::alloc::{AllocError as NoMemory, Global};
use std::marker::Model;

/// A player's record, which knows the sites that are in it and the number of its claims.
///
/// All memory is taken when it is made. The number of claims is told at once but for one look-up by a hash,
/// and the number of sites by a look at each site that is recorded.
pub struct CountedRecord {
    book: Recorded,
    planned: Vec<Planned>,
    claims: u32,
}

impl Drop for CountedRecord {
    fn drop(self) {
        let CountedRecord {
            book: _,
            planned: _,
            claims: _,
        } = self;
    }
}

// A site that is recorded: its tile, as rooms and tiles are numbered, and the number of its kind.
#[derive(Clone, Copy)]
struct Planned {
    tile: u64,
    number: u64,
}

/// How many entries of a record are for sites on other tiles than one: in its room for one kind, and in all.
#[derive(Clone, Copy)]
pub struct Elsewhere {
    pub in_room: u32,
    pub in_all: u32,
}

impl Model for CountedRecord {
    ghost use Rattle.std.specs.Prelude.{◌≡◌, ◌≤◌, length, vec_capacity};
    ghost use Rattle.intent_book.specs.Records.{Record, entries_bound};
    ghost use Rattle.counted_record.specs.inner.Planned.{IsCounting};

    ghost Value = { Record };

    ghost view = { λ r. r.book };

    ghost invariant = { λ r. IsCounting r.book.entries r.planned.items r.claims
        × (entries_bound ≤ vec_capacity r.planned) };
}

impl CountedRecord {
    /// A player's record with no entry yet, and all the memory that it will ever need.
    pub fn reserve(alloc: Global, player: u32) -> Result<CountedRecord, NoMemory>
        ensures { IfOk result (λ r. r ≡ record { player = player; entries = [] }) }
    {
        Ok(CountedRecord {
            book: Recorded::reserve(alloc, player)?,
            planned: Vec::with_capacity(alloc, most_entries() as usize)?,
            claims: 0,
        })
    }

    /// Makes it a player's record with no entry, in the room that it has.
    pub fn clear(&mut self, player: u32)
        ensures { self.new ≡ record { player = player; entries = [] } }
    {
        self.book.clear(player);
        self.planned.clear();
        self.claims = 0;
    }

    /// Takes out the entry of the same action and actor, where there is one, and adds the new one at
    /// the end. It changes nothing, and answers false, exactly where the record is full and no entry
    /// has that action and actor. It takes no memory.
    pub fn put(&mut self, intent: Intent) -> bool
        requires own { intent.player ≡ self.old.player }
        ensures answer { result ≡ accepts self.old.entries intent }
        ensures record { self.new
            ≡ record self.old {
              entries = (if result then put_last self.old.entries intent
                  else self.old.entries);
            } }
    {
        match intent.action {
            Action::CreateSite => self.put_site(intent),
            Action::ClaimController => self.put_claim(intent),
            _ => self.book.put(intent),
        }
    }

    /// How many entries are for claims by other creeps than one.
    pub fn claims_of_others(&self, creep: u64) -> u32
        ensures { result ≡ length (others_of ClaimController creep self.now.entries) }
    {
        // No two entries are of one action and actor.
        let _len = self.book.len();
        self.claims - u32::from(self.book.holds(Action::ClaimController, creep))
    }

    /// How many entries are for sites on other tiles than one.
    pub fn sites_elsewhere(&self, tile: u64, number: u64) -> Elsewhere
        ensures in_room { result.in_room ≡ length (others_in tile number self.now.entries) }
        ensures in_all { result.in_all ≡ length (others_of CreateSite tile self.now.entries) }
    {
        // No two entries are of one action and actor, and there are no more than a record takes.
        let _len = self.book.len();
        count_elsewhere(&self.planned, tile, number)
    }

    /// The record alone, lent.
    pub fn recorded(&self) -> &Recorded
        ensures { result.now ≡ self.now }
    {
        &self.book
    }

    /// The record alone.
    pub fn into_recorded(self) -> Recorded
        ensures { result ≡ self }
    {
        let CountedRecord {
            book,
            planned: _,
            claims: _,
        } = self;
        book
    }

    // Puts an entry for a site.
    fn put_site(&mut self, intent: Intent) -> bool
        requires own { intent.player ≡ self.old.player }
        requires action { intent.action ≡ CreateSite }
        ensures answer { result ≡ accepts self.old.entries intent }
        ensures record { self.new
            ≡ record self.old {
              entries = (if result then put_last self.old.entries intent
                  else self.old.entries);
            } }
    {
        let site = Planned {
            tile: intent.actor,
            number: intent.amount,
        };
        if !self.book.put(intent) {
            return false;
        }
        // There are no more entries than a record takes.
        let _len = self.book.len();
        plan(&mut self.planned, site);
        true
    }

    // Puts an entry for a claim.
    fn put_claim(&mut self, intent: Intent) -> bool
        requires own { intent.player ≡ self.old.player }
        requires action { intent.action ≡ ClaimController }
        ensures answer { result ≡ accepts self.old.entries intent }
        ensures record { self.new
            ≡ record self.old {
              entries = (if result then put_last self.old.entries intent
                  else self.old.entries);
            } }
    {
        // No two entries are of one action and actor, and there are no more than a record takes.
        let _len = self.book.len();
        let again = self.book.holds(Action::ClaimController, intent.actor);
        if !self.book.put(intent) {
            return false;
        }
        if !again {
            self.claims += 1;
        }
        true
    }
}

// Takes out the site of the same tile, where there is one, and adds the new one at the end.
fn plan(planned: &mut Vec<Planned>, site: Planned)
    requires room { length (filter (is_apart site.tile) planned.old.items) < vec_capacity planned.old }
    ensures items { planned.new.items ≡ filter (is_apart site.tile) planned.old.items ++ site ∷ [] }
    ensures room { vec_capacity planned.new ≡ vec_capacity planned.old }
{
    planned.retain(|other| other.tile != site.tile);
    planned.push_reserved(site);
}

// How many of these sites are on other tiles than one: in its room for one kind, and in all.
fn count_elsewhere(planned: &[Planned], tile: u64, number: u64) -> Elsewhere
    requires { length planned.now ≤ entries_bound }
    ensures in_room { result.in_room ≡ length (filter (is_beside tile number) planned.now) }
    ensures in_all { result.in_all ≡ length (filter (is_apart tile) planned.now) }
{
    let mut found = Elsewhere {
        in_room: 0,
        in_all: 0,
    };
    for site in planned {
        if site.tile != tile {
            found.in_all += 1;
            if site.tile / 2_500 == tile / 2_500 && site.number == number {
                found.in_room += 1;
            }
        }
    }
    found
}
