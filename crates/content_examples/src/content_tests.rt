// The contents of ticks: read and written back, and those that are refused.
use byte_fields::{put_u32, put_u64};
use intent_book::RunOutcome;
use std::alloc::{AllocError, Global};
use std::test::Fail;
use tick_journal::{Entries, TickRecord, read_tick, write_tick};
use world_bytes::BytesFault;

// Tick 7, and two uploads of player 9: of two bytes, which are accepted, and of a module that is too
// large.
const UPLOADS: [u8; 33] = [
    84, 7, 0, 0, 0, 0, 0, 0, 0, 2, 0, 0, 0, 9, 0, 0, 0, 0, 2, 0, 0, 0, 170, 187, 9, 0, 0, 0, 3, 0,
    0, 0, 0,
];

// Runs of players 1, 2 and 4: with two intents, the second of which spawns a creep of two parts, ended
// by trap 9, and spent.
const RUNS: [u8; 112] = [
    3, 0, 0, 0, 1, 0, 0, 0, 0, 0, 136, 19, 0, 0, 0, 0, 0, 0, 2, 0, 0, 0, 8, 3, 0, 0, 0, 0, 0, 0, 0,
    4, 0, 0, 0, 0, 0, 0, 0, 0, 0, 0, 0, 0, 0, 0, 0, 0, 21, 3, 0, 0, 0, 0, 0, 0, 0, 0, 0, 0, 0, 0,
    0, 0, 0, 1, 0, 0, 0, 0, 0, 0, 0, 2, 1, 8, 2, 0, 0, 0, 1, 9, 6, 0, 0, 0, 0, 0, 0, 0, 0, 0, 0, 0,
    4, 0, 0, 0, 2, 0, 16, 39, 0, 0, 0, 0, 0, 0, 0, 0, 0, 0,
];

// Accounts of players 1 and 2, with a memory text of one byte and of none.
const ACCOUNTS: [u8; 53] = [
    2, 0, 0, 0, 1, 0, 0, 0, 20, 0, 0, 0, 5, 0, 0, 0, 6, 0, 0, 0, 0, 0, 0, 0, 1, 0, 0, 0, 250, 2, 0,
    0, 0, 20, 0, 0, 0, 5, 0, 0, 0, 6, 0, 0, 0, 0, 0, 0, 0, 0, 0, 0, 0,
];

// Room 0 without objects, and room 3 with a source.
const ROOMS: [u8; 80] = [
    2, 0, 0, 0, 0, 0, 0, 0, 1, 0, 0, 0, 0, 0, 0, 0, 3, 0, 0, 0, 2, 0, 0, 0, 1, 0, 0, 0, 1, 0, 0, 0,
    3, 0, 0, 0, 1, 10, 20, 0, 0, 0, 0, 0, 0, 0, 0, 184, 11, 0, 0, 0, 0, 0, 0, 0, 0, 0, 0, 0, 0, 0,
    0, 0, 0, 0, 0, 0, 0, 0, 0, 0, 0, 0, 0, 0, 0, 0, 0, 0,
];

// Bytes of that content and what is wrong with them: the tag, the number of uploads, their results, the
// number of runs, a doubled player, an outcome, traps where there is none, two traps that there aren't,
// the order of intents, one of the same action and actor, a doubled account and one out of order, the
// number of rooms, a doubled room.
const DAMAGES: [(usize, u8); 17] = [
    (0, 0x55),
    (9, 3),
    (17, 11),
    (28, 2),
    (33, 2),
    (109, 1),
    (41, 3),
    (42, 1),
    (132, 1),
    (114, 0),
    (114, 10),
    (55, 22),
    (81, 8),
    (174, 1),
    (174, 0),
    (198, 1),
    (214, 0),
];

// Adds the content of those parts.
fn put_whole(content: &mut Vec<u8>) -> Result<(), AllocError> {
    content.extend_from_slice(&UPLOADS)?;
    content.extend_from_slice(&RUNS)?;
    content.extend_from_slice(&ACCOUNTS)?;
    content.extend_from_slice(&ROOMS)
}

// That content, of which one byte is another.
fn whole(alloc: Global, damage: Option<(usize, u8)>) -> Result<Vec<u8>, AllocError> {
    let mut content = Vec::new(alloc);
    put_whole(&mut content)?;
    if let Some((at, byte)) = damage
        && at < content.len()
    {
        content[at] = byte;
    }
    Ok(content)
}

// Adds the tick and an upload of so many bytes.
fn put_upload(content: &mut Vec<u8>, length: u32) -> Result<(), AllocError> {
    content.extend_from_slice(b"T")?;
    put_u64(content, 1)?;
    put_u32(content, 1)?;
    put_u32(content, 9)?;
    content.push(0)?;
    put_u32(content, length)?;
    for _ in 0..length {
        content.push(7)?;
    }
    Ok(())
}

// Adds a run of so many intents, and no account and no room.
fn put_run(content: &mut Vec<u8>, intents: u32) -> Result<(), AllocError> {
    put_u32(content, 1)?;
    content.extend_from_slice(&[1, 0, 0, 0, 0, 0])?;
    put_u64(content, 5)?;
    put_u32(content, intents)?;
    for actor in 0..intents {
        content.push(8)?;
        put_u64(content, u64::from(actor))?;
        content.extend_from_slice(&[0; 17])?;
    }
    put_u64(content, 0)
}

// A content with an upload of so many bytes, and with a run of so many intents.
fn filled(alloc: Global, length: u32, intents: u32) -> Result<Vec<u8>, AllocError> {
    let mut content = Vec::new(alloc);
    put_upload(&mut content, length)?;
    put_run(&mut content, intents)?;
    Ok(content)
}

fn is_malformed(alloc: Global, content: &[u8]) -> bool {
    match read_tick(alloc, content) {
        Ok(_) => false,
        Err(fault) => fault == BytesFault::Malformed,
    }
}

// The record that a content spells.
fn record_in(alloc: Global, content: &[u8]) -> Result<TickRecord, Fail> {
    Ok(read_tick(alloc, content)?)
}

// The record of that content.
fn whole_record(alloc: Global) -> Result<TickRecord, Fail> {
    record_in(alloc, &whole(alloc, None)?)
}

// Whether a record is written as this content.
fn is_written(alloc: Global, entry: &TickRecord, content: &[u8]) -> bool {
    match write_tick(alloc, entry) {
        Ok(again) => again.as_slice() == content,
        Err(_) => false,
    }
}

// Whether the record of a content is written as that content again.
fn is_written_again(alloc: Global, content: &[u8]) -> bool {
    match read_tick(alloc, content) {
        Ok(entry) => is_written(alloc, &entry, content),
        Err(_) => false,
    }
}

// The player, the result and the number of bytes of the first upload.
fn first_upload(entry: &TickRecord) -> Option<(u32, u8, u64)> {
    let upload = entry.uploads.as_slice().first()?;
    Some((upload.player, upload.result_number, upload.bytes.len()))
}

#[test]
fn uploads_come_back(rt: HostRuntime) -> Result<(), Fail> {
    let entry = whole_record(rt.alloc())?;
    assert!(rt; (entry.tick, entry.uploads.as_slice().len()) == (7, 2));
    assert!(rt; first_upload(&entry) == Some((9, 0, 2)));
    Ok(())
}

// The player, the outcome and the ticks of the first run.
fn first_run(entry: &TickRecord) -> Option<(u32, RunOutcome, u64)> {
    let run = entry.runs.as_slice().first()?;
    Some((run.player, run.outcome, run.used))
}

// The player, the actor, the amount and the number of parts of the last intent of the first run.
fn last_intent(entry: &TickRecord) -> Option<(u32, u64, u64, u64)> {
    let run = entry.runs.as_slice().first()?;
    let intent = run.intents.as_slice().last()?;
    Some((
        intent.player,
        intent.actor,
        intent.amount,
        intent.body.len(),
    ))
}

// The outcome of a run.
fn outcome(entry: &TickRecord, place: usize) -> Option<RunOutcome> {
    let run = entry.runs.as_slice().get(place)?;
    Some(run.outcome)
}

#[test]
fn runs_come_back(rt: HostRuntime) -> Result<(), Fail> {
    let entry = whole_record(rt.alloc())?;
    assert!(rt; first_run(&entry) == Some((1, RunOutcome::Finished, 5_000)));
    assert!(rt; last_intent(&entry) == Some((1, 3, 1, 2)));
    assert!(rt; outcome(&entry, 1) == Some(RunOutcome::Trapped(9)));
    assert!(rt; outcome(&entry, 2) == Some(RunOutcome::Spent));
    Ok(())
}

// The player and the length of the memory text of the first account.
fn first_account(entry: &TickRecord) -> Option<(u32, u64)> {
    let account = entry.accounts.as_slice().first()?;
    Some((account.player, account.memory.len()))
}

// The index, the next serial and the number of objects of the last room.
fn last_room(entry: &TickRecord) -> Option<(u32, u32, u32)> {
    let table = entry.rooms.as_slice().last()?;
    Some((table.index(), table.next(), table.len()))
}

#[test]
fn accounts_and_rooms_come_back(rt: HostRuntime) -> Result<(), Fail> {
    let entry = whole_record(rt.alloc())?;
    assert!(rt; first_account(&entry) == Some((1, 1)));
    assert!(rt; last_room(&entry) == Some((3, 2, 1)));
    Ok(())
}

// Whether that content is refused with this damage.
fn is_refused(alloc: Global, damage: (usize, u8)) -> Result<bool, AllocError> {
    Ok(is_malformed(alloc, &whole(alloc, Some(damage))?))
}

// The first bytes of that content with these behind them.
fn cut(alloc: Global, len: usize, behind: &[u8]) -> Result<Vec<u8>, AllocError> {
    let mut content = whole(alloc, None)?;
    content.truncate(len);
    content.extend_from_slice(behind)?;
    Ok(content)
}

// Whether that is refused.
fn is_refused_cut(alloc: Global, len: usize, behind: &[u8]) -> Result<bool, AllocError> {
    Ok(is_malformed(alloc, &cut(alloc, len, behind)?))
}

#[test]
fn a_content_is_read_to_its_end(rt: HostRuntime) -> Result<(), Fail> {
    let alloc = rt.alloc();
    for damage in DAMAGES {
        assert!(rt; is_refused(alloc, damage)?, "{damage:?}");
    }
    // (a byte too many, one too few, and more uploads than there is room for)
    assert!(rt; is_refused_cut(alloc, 278, &[0])?);
    assert!(rt; is_refused_cut(alloc, 277, &[])?);
    assert!(rt; is_refused_cut(alloc, 9, &[0xff; 4])?);
    Ok(())
}

// The bytes of a record of tick 5 in which nothing is.
fn nothing(alloc: Global) -> Result<Vec<u8>, Fail> {
    let entry = TickRecord {
        tick: 5,
        uploads: Entries::from_vec(Vec::new(alloc)),
        runs: Entries::from_vec(Vec::new(alloc)),
        accounts: Entries::from_vec(Vec::new(alloc)),
        rooms: Entries::from_vec(Vec::new(alloc)),
    };
    Ok(write_tick(alloc, &entry)?)
}

// The tick of a record, and how many runs and rooms it has.
fn counts(entry: TickRecord) -> (u64, usize, usize) {
    let rooms = entry.rooms.into_vec();
    (entry.tick, entry.runs.as_slice().len(), rooms.len())
}

#[test]
fn lists_are_empty(rt: HostRuntime) -> Result<(), Fail> {
    let content = nothing(rt.alloc())?;
    let mut empty = [0u8; 25];
    empty[0] = b'T';
    empty[1] = 5;
    assert!(rt; content.as_slice() == empty.as_slice());
    assert!(rt; counts(record_in(rt.alloc(), &content)?) == (5, 0, 0));
    Ok(())
}

// Whether that content, and one with so many bytes and intents, are written again.
fn are_written_again(alloc: Global, length: u32, intents: u32) -> Result<bool, AllocError> {
    let is_whole = is_written_again(alloc, &whole(alloc, None)?);
    Ok(is_whole && is_written_again(alloc, &filled(alloc, length, intents)?))
}

// Whether a content with so many bytes and intents is refused.
fn is_too_full(alloc: Global, length: u32, intents: u32) -> Result<bool, AllocError> {
    Ok(is_malformed(alloc, &filled(alloc, length, intents)?))
}

#[test]
fn lists_are_full(rt: HostRuntime) -> Result<(), Fail> {
    let alloc = rt.alloc();
    assert!(rt; are_written_again(alloc, 1_048_576, 4_096)?);
    assert!(rt; is_too_full(alloc, 1_048_577, 0)?);
    assert!(rt; is_too_full(alloc, 0, 4_097)?);
    Ok(())
}
