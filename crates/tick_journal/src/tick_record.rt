// What is recorded of a tick.
ghost use Rattle.std.specs.Prelude.{◌≡◌};

use crate::entries::{RunEntry, UploadEntry};
use object_store::{Account, RoomTable};
use std::marker::Model;

/// A list of what a record holds.
#[derive(Drop)]
pub struct Entries<E: Drop> {
    list: Vec<E>,
}

impl<E: Drop> Model for Entries<E> {
    ghost use Rattle.std.specs.Prelude.{List};

    ghost Value = { List E };

    ghost view = { λ entries. entries.list.items };
}

impl<E: Drop> Entries<E> {
    /// These entries. It takes no memory.
    pub fn from_vec(list: Vec<E>) -> Entries<E>
        ensures { result ≡ list.items }
    {
        Entries { list }
    }

    /// The entries in a vector. It takes no memory.
    pub fn into_vec(self) -> Vec<E>
        ensures { result.items ≡ self }
    {
        self.list
    }

    /// The whole list.
    pub fn as_slice(&self) -> &[E]
        ensures { result.now ≡ self.now }
    {
        &self.list
    }
}

/// The uploads of a tick, in the order in which they were judged.
pub type Uploads = Entries<UploadEntry>;

/// The runs of a tick, in rising player.
pub type Runs = Entries<RunEntry>;

/// Accounts after a tick, in rising player.
pub type Accounts = Entries<Account>;

/// The rooms of which a tick changed what is written, in rising index.
pub type ChangedRooms = Entries<RoomTable>;

/// What is recorded of a tick.
#[derive(Drop)]
pub struct TickRecord {
    /// The number of the world after it.
    pub tick: u64,
    pub uploads: Uploads,
    pub runs: Runs,
    pub accounts: Accounts,
    pub rooms: ChangedRooms,
}
