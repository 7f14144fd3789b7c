// Records that follow a world, and records that don't, each for one cause.
use crate::followed::all_seen;
use crate::worlds::{IDLE, PARTS, account, pile, world_of};
use intent_book::{Intents, RunOutcome};
use object_store::{Account, Bytes, RoomTable};
use record_follows::follows;
use std::alloc::{AllocError, Global};
use std::test::Fail;
use tick_journal::{Entries, RunEntry, TickRecord, UploadEntry};

// What is changed of a record that follows.
#[derive(Clone, Copy)]
struct Changed {
    tick: u64,
    index: u32,
    id: u64,
    x: u8,
    energy: u64,
    owner: u32,
    runner: u32,
    account: u32,
    sender: u32,
    result_number: u8,
    bytes: usize,
}

// The record that follows the world of tick 41.
const RIGHT: Changed = Changed {
    tick: 42,
    index: 1,
    id: 4_294_967_297,
    x: 20,
    energy: 1,
    owner: 0,
    runner: 9,
    account: 7,
    sender: 7,
    result_number: 0,
    bytes: 34,
};

// The upload of the record.
fn uploads(alloc: Global, changed: Changed) -> Result<Vec<UploadEntry>, AllocError> {
    let bytes = IDLE.get(..changed.bytes).unwrap_or(&[]);
    let upload = UploadEntry {
        player: changed.sender,
        result_number: changed.result_number,
        bytes: Bytes::of(alloc, bytes)?,
    };
    Ok(vec![in alloc; upload]?)
}

// The run of the record.
fn runs(alloc: Global, changed: Changed) -> Result<Vec<RunEntry>, AllocError> {
    let run = RunEntry {
        player: changed.runner,
        outcome: RunOutcome::Finished,
        used: 3,
        intents: Intents::new(alloc),
    };
    Ok(vec![in alloc; run]?)
}

// The accounts of the record: two of one player, of which the first counts.
fn accounts(alloc: Global, changed: Changed) -> Result<Vec<Account>, AllocError> {
    let one = account(alloc, changed.account, 6, b"")?;
    let other = account(alloc, changed.account, 8, b"")?;
    Ok(vec![in alloc; one, other]?)
}

// The tables of the record: two of one room, of which the first counts.
fn tables(alloc: Global, changed: Changed) -> Result<Vec<RoomTable>, AllocError> {
    let pile = pile(changed.id, changed.x, changed.energy, changed.owner);
    let first = RoomTable::of(alloc, changed.index, 3, vec![in alloc; pile]?)?;
    let second = RoomTable::of(alloc, changed.index, 3, Vec::new(alloc))?;
    Ok(vec![in alloc; first, second]?)
}

// Its upload and its run.
fn inputs(
    alloc: Global,
    changed: Changed,
) -> Result<(Vec<UploadEntry>, Vec<RunEntry>), AllocError> {
    let uploads = uploads(alloc, changed)?;
    Ok((uploads, runs(alloc, changed)?))
}

// Its accounts and its tables.
fn results(alloc: Global, changed: Changed) -> Result<(Vec<Account>, Vec<RoomTable>), AllocError> {
    let accounts = accounts(alloc, changed)?;
    Ok((accounts, tables(alloc, changed)?))
}

// The record with these changes.
fn record(alloc: Global, changed: Changed) -> Result<TickRecord, AllocError> {
    let (uploads, runs) = inputs(alloc, changed)?;
    let (accounts, rooms) = results(alloc, changed)?;
    Ok(TickRecord {
        tick: changed.tick,
        uploads: Entries::from_vec(uploads),
        runs: Entries::from_vec(runs),
        accounts: Entries::from_vec(accounts),
        rooms: Entries::from_vec(rooms),
    })
}

// Whether the record with these changes follows the world, which is as it was.
fn fits(alloc: Global, changed: Changed) -> Result<bool, AllocError> {
    follows(
        alloc,
        &world_of(alloc, 41, PARTS)?,
        &record(alloc, changed)?,
    )
}

#[test]
fn each_field_of_a_record_is_tested(rt: HostRuntime) -> Result<(), Fail> {
    let alloc = rt.alloc();
    assert!(rt; fits(alloc, RIGHT)?);
    // (an upload that was refused, of whomever and of whatever bytes)
    assert!(rt;
        fits(
            alloc,
            Changed {
                sender: 8,
                result_number: 1,
                bytes: 0,
                ..RIGHT
            }
        )?
    );
    for changed in [
        Changed { tick: 41, ..RIGHT },
        Changed { tick: 43, ..RIGHT },
        // (no room)
        Changed { index: 2, ..RIGHT },
        // (nobody's run, account and upload)
        Changed { runner: 8, ..RIGHT },
        Changed {
            account: 8,
            ..RIGHT
        },
        Changed { sender: 8, ..RIGHT },
        // (no module)
        Changed { bytes: 33, ..RIGHT },
        // (no tile, a pile of nothing, one that somebody owns, an id that was not given, and one that is
        // there twice)
        Changed { x: 50, ..RIGHT },
        Changed { energy: 0, ..RIGHT },
        Changed { owner: 7, ..RIGHT },
        Changed {
            id: 4_294_967_299,
            ..RIGHT
        },
        Changed { id: 1, ..RIGHT },
    ] {
        assert!(rt; !fits(alloc, changed)?);
    }
    Ok(())
}

#[test]
fn a_record_that_follows_leads_to_the_world_after_it(rt: HostRuntime) -> Result<(), Fail> {
    let entry = record(rt.alloc(), RIGHT)?;
    let before = (41, Some(5), Some(5), Some(5), Some(5));
    let after = (42, Some(5), Some(1), Some(6), Some(5));
    assert!(rt; all_seen(rt.alloc(), &entry)? == (before, Some(after), after, false));
    Ok(())
}
