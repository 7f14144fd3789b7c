// The contents of frames, as bytes.
ghost use Rattle.std.specs.Prelude.{◌≡◌, ◌++◌, IfOk, OnOk};
ghost use Rattle.byteorder.specs.Endian.{little_bytes};
ghost use Rattle.tick_journal.specs.Contents.{base_content, magic, tick_content as tick_bytes};
ghost use Rattle.tick_journal.specs.Numbers.{RecordFits, WorldFits};

use crate::base::{MARK, VERSION, put_base_rooms};
use crate::entries::{RunEntry, UploadEntry};
use crate::parts::{put_accounts, put_runs, put_tables, put_uploads};
use crate::tick_record::TickRecord;
use byte_fields::{put_u32, put_u64};
use object_store::{Account, Room, RoomTable, World};
use std::alloc::{AllocError as NoMemory, Global};

// The most bytes of a content beside the entries of its lists.
const FRAME: usize = 25;

// The bytes of a room without its objects: in a tick its index, the serial of its next new object and
// the number of its objects, and in a base its column, its row and its tiles too.
const TICK_ROOM: u16 = 12;

const BASE_ROOM: u16 = 2_520;

// Reckons the bytes of a room: so many, and 52 for an object, whose body is left out.
fn room_size(each: u16, table: &RoomTable) -> usize {
    usize::from(each) + 52 * (table.len() as usize)
}

// Reckons the bytes of rooms.
fn rooms_size(each: u16, rooms: &[Room]) -> usize {
    let mut bytes = 0usize;
    for room in rooms {
        bytes = bytes.saturating_add(room_size(each, &room.table));
    }
    bytes
}

// Reckons the bytes of tables in a tick.
fn tables_size(tables: &[RoomTable]) -> usize {
    let mut bytes = 0usize;
    for table in tables {
        bytes = bytes.saturating_add(room_size(TICK_ROOM, table));
    }
    bytes
}

// The bytes of accounts.
fn accounts_size(accounts: &[Account]) -> usize {
    let mut bytes = 0usize;
    for account in accounts {
        bytes = bytes.saturating_add(24);
        bytes = bytes.saturating_add(account.memory.as_slice().len());
    }
    bytes
}

// The bytes of uploads.
fn uploads_size(uploads: &[UploadEntry]) -> usize {
    let mut bytes = 0usize;
    for entry in uploads {
        bytes = bytes.saturating_add(9);
        bytes = bytes.saturating_add(entry.bytes.as_slice().len());
    }
    bytes
}

// Reckons the bytes of a run of so many intents: 26 for each, whose body is left out.
fn run_size(intents: usize) -> usize {
    intents.saturating_mul(26).saturating_add(18)
}

// Reckons the bytes of runs.
fn runs_size(runs: &[RunEntry]) -> usize {
    let mut bytes = 0usize;
    for run in runs {
        bytes = bytes.saturating_add(run_size(run.intents.as_slice().len()));
    }
    bytes
}

// The sum of sizes.
fn together(sizes: &[usize]) -> usize {
    let mut bytes = FRAME;
    for size in sizes {
        bytes = bytes.saturating_add(*size);
    }
    bytes
}

// Writes what a journal begins with: its mark, its version and the tick of its world.
fn put_start(tick: u64, out: &mut Vec<u8>) -> Result<(), NoMemory>
    ensures { OnOk result
        (out.new.items ≡ out.old.items ++ (magic ++ little_bytes 4 1 ++ little_bytes 8 tick)) }
{
    out.extend_from_slice(&MARK)?;
    put_u32(out, VERSION)?;
    put_u64(out, tick)
}

/// The content of a journal's first frame: the world that it begins with.
pub fn write_base(alloc: Global, world: &World) -> Result<Vec<u8>, NoMemory>
    ensures written { IfOk result (λ bytes. bytes.items ≡ base_content world.now) }
    ensures fits { OnOk result (WorldFits world.now) }
{
    let rooms = rooms_size(BASE_ROOM, world.room_list());
    let accounts = accounts_size(world.account_list());
    let mut out = Vec::with_capacity(alloc, together(&[rooms, accounts]))?;
    put_start(world.tick(), &mut out)?;
    put_base_rooms(world.room_list(), &mut out)?;
    put_accounts(world.account_list(), &mut out)?;
    Ok(out)
}

/// The content of a tick's frame. A record that has no form is written too, and is not read again as
/// it was; a list of 2^32 entries or more is want of memory.
pub fn write_tick(alloc: Global, entry: &TickRecord) -> Result<Vec<u8>, NoMemory>
    ensures written { IfOk result (λ bytes. bytes.items ≡ tick_bytes entry.now) }
    ensures fits { OnOk result (RecordFits entry.now) }
{
    let judged = entry.uploads.as_slice();
    let runs = entry.runs.as_slice();
    let accounts = entry.accounts.as_slice();
    let tables = entry.rooms.as_slice();
    let sizes = [
        uploads_size(judged),
        runs_size(runs),
        accounts_size(accounts),
        tables_size(tables),
    ];
    let mut out = Vec::with_capacity(alloc, together(&sizes))?;
    out.push(b'T')?;
    put_u64(&mut out, entry.tick)?;
    put_uploads(judged, &mut out)?;
    put_runs(runs, &mut out)?;
    put_accounts(accounts, &mut out)?;
    put_tables(tables, &mut out)?;
    Ok(out)
}
