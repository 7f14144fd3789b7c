// Journals on a disk in memory.
ghost use Rattle.std.specs.Prelude.{◌≡◌, [], ◌∷◌, IfOk};
ghost use Rattle.world_io.specs.InMemory.{moments_now};
ghost use Rattle.world_io.specs.Moments.{settled};

use crate::worlds::{IDLE, PARTS, TRAPPED, world_of};
use object_store::Bytes;
use std::alloc::{AllocError, Global};
use std::test::Fail;
use tick_journal::{Entries, TickRecord, UploadEntry};
use world_io::MemoryDisk;
use world_journal::Journal;

/// The tick of the world that the journals begin with.
pub const FIRST: u64 = 3;

/// Uploads in their order: who sent them, what they came to, and their bytes.
pub const UPLOADS: [(u32, u8, &[u8]); 6] = [
    (7, 3, b"no module"),
    (7, 0, &IDLE),
    (9, 0, &IDLE),
    (7, 0, &TRAPPED),
    (8, 1, b""),
    (9, 4, b"no module"),
];

/// A disk of these bytes, of which all calls fail after the one of the number `stop`.
pub fn disk_of(alloc: Global, bytes: &[u8], stop: Option<u64>) -> Result<MemoryDisk, Fail>
    ensures bytes { IfOk result (λ disk. disk.bytes.items ≡ bytes.now) }
    ensures rests { IfOk result (λ disk. moments_now disk ≡ settled bytes.now ∷ []) }
{
    if bytes.len() >= 1 << 62 {
        return Err("too long".into());
    }
    Ok(MemoryDisk::new(Vec::from_slice(alloc, bytes)?, Vec::new(alloc), stop))
}

/// The record of a tick with these uploads, in which nothing else changed.
pub fn record_of(
    alloc: Global,
    tick: u64,
    uploads: &[(u32, u8, &[u8])],
) -> Result<TickRecord, AllocError> {
    let mut entries = Vec::new(alloc);
    for (player, result_number, bytes) in uploads {
        entries.push(UploadEntry {
            player: *player,
            result_number: *result_number,
            bytes: Bytes::of(alloc, bytes)?,
        })?;
    }
    Ok(TickRecord {
        tick,
        uploads: Entries::from_vec(entries),
        runs: Entries::from_vec(Vec::new(alloc)),
        accounts: Entries::from_vec(Vec::new(alloc)),
        rooms: Entries::from_vec(Vec::new(alloc)),
    })
}

/// The bytes of this journal with the record.
pub fn added(alloc: Global, bytes: &[u8], entry: &TickRecord) -> Result<Vec<u8>, Fail> {
    let mut disk = disk_of(alloc, bytes, None)?;
    let Ok(mut found) = Journal::recover(alloc, &mut disk) else {
        return Err("not recovered".into());
    };
    match found.journal.append(alloc, &mut disk, entry) {
        Ok(()) => Ok(Vec::from_slice(alloc, disk.bytes())?),
        Err(_) => Err("not added".into()),
    }
}

/// The bytes of a journal of records of these ticks, that of the first tick with the uploads.
pub fn journal_of(alloc: Global, ticks: &[u64]) -> Result<Vec<u8>, Fail> {
    let mut disk = disk_of(alloc, &[], None)?;
    let base = world_of(alloc, FIRST, PARTS)?;
    if Journal::create(alloc, &mut disk, &base).is_err() {
        return Err("not made".into());
    }
    let mut bytes = Vec::from_slice(alloc, disk.bytes())?;
    for tick in ticks {
        let entry = if *tick == FIRST + 1 {
            record_of(alloc, *tick, &UPLOADS)?
        } else {
            record_of(alloc, *tick, &[])?
        };
        bytes = added(alloc, &bytes, &entry)?;
    }
    Ok(bytes)
}
