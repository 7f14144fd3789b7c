// What is made of a journal that is read.

use crate::journal::Journal;
use object_store::{Bytes, World};
use std::collections::BTreeMap;
use tick_journal::Entries;

/// The bytes of the modules by their players: the latest that were accepted.
pub type Modules = BTreeMap<u32, Bytes>;

/// How many uploads a player has in all records, up to 2^64 - 1, and the number of the last one's result, 255
/// where there was none.
#[derive(Clone, Copy, Debug, PartialEq, Eq)]
pub struct UploadCount {
    pub player: u32,
    pub uploads: u64,
    pub last: u8,
}

/// One for each account, in rising player.
pub type UploadCounts = Entries<UploadCount>;

/// A journal that was read, and what stands in it.
#[derive(Drop)]
pub struct Recovered {
    pub journal: Journal,
    /// The world that the journal begins with.
    pub base: World,
    /// The world after all records.
    pub world: World,
    pub modules: Modules,
    pub uploads: UploadCounts,
}
