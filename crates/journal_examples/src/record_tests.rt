// The records of ticks, of which only what is stored of the worlds before and after counts.
use crate::worlds::{PARTS, Parts, world_of};
use intent_book::{Intents, PlayerRun, RunOutcome};
use object_store::{Bytes, World};
use recorded_tick::record_tick;
use std::alloc::{AllocError, Global};
use std::test::Fail;
use tick_journal::{TickRecord, UploadEntry};

// An upload of player 7.
fn uploads(alloc: Global) -> Result<Vec<UploadEntry>, AllocError> {
    let upload = UploadEntry {
        player: 7,
        result_number: 4,
        bytes: Bytes::of(alloc, b"no module")?,
    };
    Ok(vec![in alloc; upload]?)
}

// A run of player 7.
fn runs(alloc: Global) -> Result<Vec<PlayerRun>, AllocError> {
    let run = PlayerRun {
        player: 7,
        outcome: RunOutcome::Trapped(3),
        used: 77,
        intents: Intents::new(alloc),
        memory: Bytes::new(alloc),
    };
    Ok(vec![in alloc; run]?)
}

// The record of a tick between these worlds, with that upload and run.
fn record_between(alloc: Global, before: &World, after: &World) -> Result<TickRecord, Fail> {
    if before.rooms() != after.rooms() || before.accounts() != after.accounts() {
        return Err("not as many".into());
    }
    let uploads = uploads(alloc)?;
    let runs = runs(alloc)?;
    Ok(record_tick(alloc, before, after, uploads, runs)?)
}

// The record of a tick to the world of these parts.
fn record_to(alloc: Global, parts: Parts) -> Result<TickRecord, Fail> {
    let before = world_of(alloc, 40, PARTS)?;
    let after = world_of(alloc, 41, parts)?;
    record_between(alloc, &before, &after)
}

// How many accounts and rooms are recorded.
fn changed(record: &TickRecord) -> (usize, usize) {
    (
        record.accounts.as_slice().len(),
        record.rooms.as_slice().len(),
    )
}

// The player, the bucket and the memory text of the first account that is recorded.
fn first_account(record: &TickRecord) -> Option<(u32, u32, &[u8])> {
    let account = record.accounts.as_slice().first()?;
    Some((account.player, account.bucket, account.memory.as_slice()))
}

// The index of the first room that is recorded, the serial of its next object, and the energy of its first.
fn first_room(record: &TickRecord) -> Option<(u32, u32, u64)> {
    let table = record.rooms.as_slice().first()?;
    let object = table.nth(0)?;
    Some((table.index(), table.next(), object.energy))
}

// The player, the result and the bytes of the first upload that is recorded.
fn first_upload(record: &TickRecord) -> Option<(u32, u8, &[u8])> {
    let upload = record.uploads.as_slice().first()?;
    Some((upload.player, upload.result_number, upload.bytes.as_slice()))
}

// The player, the outcome and the ticks of the first run that is recorded.
fn first_run(record: &TickRecord) -> Option<(u32, RunOutcome, u64)> {
    let run = record.runs.as_slice().first()?;
    Some((run.player, run.outcome, run.used))
}

#[test]
fn what_did_not_change_is_not_recorded(rt: HostRuntime) -> Result<(), Fail> {
    let record = record_to(rt.alloc(), PARTS)?;
    assert!(rt; (record.tick, changed(&record)) == (41, (0, 0)));
    assert!(rt; first_upload(&record) == Some((7, 4, b"no module".as_slice())));
    assert!(rt; first_run(&record) == Some((7, RunOutcome::Trapped(3), 77)));
    Ok(())
}

#[test]
fn what_changed_is_recorded(rt: HostRuntime) -> Result<(), Fail> {
    for (parts, account) in [
        (Parts { bucket: 4, ..PARTS }, (9, 4, b"nine".as_slice())),
        (
            Parts {
                memory: b"none",
                ..PARTS
            },
            (9, 5, b"none".as_slice()),
        ),
    ] {
        let record = record_to(rt.alloc(), parts)?;
        assert!(rt; (changed(&record), first_account(&record)) == ((1, 0), Some(account)));
    }
    for (parts, room) in [
        (Parts { next: 4, ..PARTS }, (1, 4, 5)),
        (Parts { energy: 4, ..PARTS }, (1, 3, 4)),
    ] {
        let record = record_to(rt.alloc(), parts)?;
        assert!(rt; (changed(&record), first_room(&record)) == ((0, 1), Some(room)));
    }
    Ok(())
}
