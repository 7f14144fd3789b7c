// The room in which desks work.
ghost use Rattle.std.specs.Prelude.{◌≤◌, vec_capacity};
ghost use Rattle.game_tables.specs.Limits.{most_memory};

use counted_record::CountedRecord;
use game_tables::most_memory;
use std::alloc::{AllocError as NoMemory, Global};

/// The room that desks take, one after the other: for a full record, and for the longest memory text.
#[derive(Drop)]
pub struct DeskRoom {
    pub(crate) book: CountedRecord,
    pub(crate) text: Vec<u8>,
    ghost room: { most_memory ≤ vec_capacity text },
}

impl DeskRoom {
    /// Room in which no desk worked yet.
    pub fn new(alloc: Global) -> Result<DeskRoom, NoMemory> {
        Ok(DeskRoom {
            book: CountedRecord::reserve(alloc, 0)?,
            text: Vec::with_capacity(alloc, most_memory() as usize)?,
        })
    }
}
