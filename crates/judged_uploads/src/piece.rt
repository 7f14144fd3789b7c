// The content of a tick's frame, made where the frame is made.
ghost use Rattle.std.specs.Prelude.{◌≡◌, ◌≤◌, ◌++◌, [], length, take, drop, IfOk, OnOk};
ghost use Rattle.std.specs.List.{AllByRecursion, flat_map};
ghost use Rattle.tick_journal.specs.Contents.{tick_content, upload_bytes};
ghost use Rattle.tick_journal.specs.Numbers.{RecordFits, UploadFits};
ghost use Rattle.judged_uploads.specs.Entries.{entry_of};
ghost use Rattle.judged_uploads.specs.Judging.{with_uploads};

use crate::NoMemory;
use crate::judged::{JudgedEntry, JudgedUploads};
use byte_fields::put_u32;
use std::alloc::Global;
use tick_journal::{TickRecord, write_tick};
use world_bytes::put_length;

// The bytes before a content, in which its length is to be told.
const ROOM: usize = 8;

// The bytes of a tick's content before the number of its uploads, and those up to the first upload.
const BEFORE_COUNT: usize = 9;

const BEFORE_UPLOADS: usize = 13;

// The bytes of uploads.
fn entries_size(judged: &JudgedUploads) -> usize {
    let mut bytes = 0usize;
    let mut entries = judged.entries();
    'each: while let Some(entry) = entries.next() {
        bytes = bytes.saturating_add(9);
        bytes = bytes.saturating_add(entry.bytes.len());
    }
    bytes
}

// Writes an upload, with its bytes behind their number.
fn put_entry(entry: JudgedEntry, out: &mut Vec<u8>) -> Result<(), NoMemory>
    ensures { OnOk result (out.new.items ≡ out.old.items ++ upload_bytes (entry_of entry.entry)) }
{
    put_u32(out, entry.player)?;
    out.push(entry.result_number)?;
    put_length(entry.bytes.len() as u64, out)?;
    out.extend_from_slice(entry.bytes)
}

// Writes uploads, one behind the other.
fn put_entries(judged: &JudgedUploads, out: &mut Vec<u8>) -> Result<(), NoMemory>
    ensures written { OnOk result (out.new.items ≡ out.old.items ++ flat_map upload_bytes judged.now) }
    ensures fits { OnOk result (AllByRecursion UploadFits judged.now) }
{
    let mut entries = judged.entries();
    'each: while let Some(entry) = entries.next() {
        put_entry(entry, out)?;
    }
    Ok(())
}

// What stands in a content before the number of its uploads, and what behind them, where there are none.
fn around_uploads<'a>(content: &'a [u8]) -> (&'a [u8], &'a [u8])
    requires { 13 ≤ length content.now }
    ensures front { result.0.now ≡ take 9 content.now }
    ensures back { result.1.now ≡ drop 13 content.now }
{
    (&content[..BEFORE_COUNT], &content[BEFORE_UPLOADS..])
}

/// The content of a tick's frame behind eight bytes of room for its length, for a record with these uploads.
/// It takes time and memory once for what is written, and the memory for the byte behind the frame.
pub fn tick_piece(
    alloc: Global,
    judged: &JudgedUploads,
    entry: &TickRecord,
) -> Result<Vec<u8>, NoMemory>
    requires { entry.now.uploads ≡ [] }
    ensures room { IfOk result (λ piece. 8 ≤ length piece.items) }
    ensures written { IfOk result
        (λ piece. drop 8 piece.items ≡ tick_content (with_uploads judged.now entry.now)) }
    ensures fits { OnOk result (RecordFits (with_uploads judged.now entry.now)) }
{
    let own = write_tick(alloc, entry)?;
    let (front, back) = around_uploads(&own);
    let beside = own.len().saturating_add(ROOM + 1);
    let mut piece = Vec::with_capacity(alloc, entries_size(judged).saturating_add(beside))?;
    piece.extend_from_slice(&[0; ROOM])?;
    piece.extend_from_slice(front)?;
    put_length(judged.count() as u64, &mut piece)?;
    put_entries(judged, &mut piece)?;
    piece.extend_from_slice(back)?;
    Ok(piece)
}
