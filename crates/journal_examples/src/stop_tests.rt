// A stop at each call of the disk, and what a crash leaves then: the images of the picks 0 to 255.
use crate::journals::{FIRST, added, disk_of, journal_of, record_of};
use crate::worlds::{PARTS, world_of};
use object_store::World;
use std::alloc::Global;
use std::test::Fail;
use tick_journal::TickRecord;
use world_io::MemoryDisk;
use world_journal::{AtFault, Journal, records};

// The fewest and the most that the images of a crash stand for, as `standing` counts, and whether the call
// was done.
type Left = (u64, u64, bool);

// What an image stands for: 0 where nothing was ever committed, else the world and so many records, counted
// together.
fn standing(alloc: Global, image: &[u8]) -> Result<u64, Fail> {
    let mut disk = disk_of(alloc, image, None)?;
    match records(alloc, &mut disk) {
        Ok((_, entries)) => Ok((entries.as_slice().len() as u64).saturating_add(1)),
        Err(AtFault::NoJournal) => Ok(0),
        Err(_) => Err("no journal".into()),
    }
}

// What the image of a pick stands for.
fn standing_after(alloc: Global, disk: &MemoryDisk, pick: u64) -> Result<u64, Fail> {
    standing(alloc, disk.crash(alloc, pick)?.bytes())
}

// What the images of a crash now stand for, the fewest and the most.
fn left_of(alloc: Global, disk: &MemoryDisk) -> Result<(u64, u64), Fail> {
    let mut fewest = u64::MAX;
    let mut most = 0;
    for pick in 0..256 {
        let found = standing_after(alloc, disk, pick)?;
        fewest = fewest.min(found);
        most = most.max(found);
    }
    Ok((fewest, most))
}

// What is left where a journal of this world is made, on a disk that stops behind a call.
fn left_of_making(alloc: Global, base: &World, stop: u64) -> Result<Left, Fail> {
    let mut disk = disk_of(alloc, &[], Some(stop))?;
    let made = Journal::create(alloc, &mut disk, base).is_ok();
    let (fewest, most) = left_of(alloc, &disk)?;
    Ok((fewest, most, made))
}

// The calls are a length, and a write and a sync of the closed gate, of the world's frame and of its gate. A
// call that fails may have been begun.
#[test]
fn a_stop_of_a_making_leaves_nothing_or_the_world(rt: HostRuntime) -> Result<(), Fail> {
    let alloc = rt.alloc();
    let base = world_of(alloc, FIRST, PARTS)?;
    for (stop, left) in [
        (0_u64, (0_u64, 0_u64, false)),
        (1, (0, 0, false)),
        (2, (0, 0, false)),
        (3, (0, 0, false)),
        (4, (0, 1, false)),
        (5, (0, 1, false)),
        (6, (1, 1, true)),
        (7, (1, 1, true)),
    ] {
        assert!(rt; left_of_making(alloc, &base, stop)? == left);
    }
    Ok(())
}

// The disk on which the journal of these bytes was recovered and the record added, and whether both were
// done, where it stops behind a call.
fn added_until(
    alloc: Global,
    bytes: &[u8],
    entry: &TickRecord,
    stop: u64,
) -> Result<(MemoryDisk, bool), Fail> {
    let mut disk = disk_of(alloc, bytes, Some(stop))?;
    let done = match Journal::recover(alloc, &mut disk) {
        Ok(mut found) => found.journal.append(alloc, &mut disk, entry).is_ok(),
        Err(_) => false,
    };
    Ok((disk, done))
}

// What is left there.
fn left_of_adding(
    alloc: Global,
    bytes: &[u8],
    entry: &TickRecord,
    stop: u64,
) -> Result<Left, Fail> {
    let (disk, done) = added_until(alloc, bytes, entry, stop)?;
    let (fewest, most) = left_of(alloc, &disk)?;
    Ok((fewest, most, done))
}

// A journal of a world and a record, with bytes behind its closed gate.
fn torn_journal(alloc: Global) -> Result<Vec<u8>, Fail> {
    let mut bytes = journal_of(alloc, &[4])?;
    bytes.extend_from_slice(b"torn")?;
    Ok(bytes)
}

// Those of each stop, up to the first at which all was done.
fn all_left(alloc: Global) -> Result<Vec<Left>, Fail> {
    let bytes = torn_journal(alloc)?;
    let entry = record_of(alloc, 5, &[])?;
    let mut all = Vec::new(alloc);
    for stop in 0..40 {
        let left = left_of_adding(alloc, &bytes, &entry, stop)?;
        all.push(left)?;
        if left.2 {
            break;
        }
    }
    Ok(all)
}

// The calls of a recovery are a length, two reads of each frame, one of the closed gate, a cut and a sync;
// and those of an addition a write and a sync of the frame, and the same of its gate.
#[test]
fn a_stop_of_an_addition_leaves_the_journal_before_or_after(rt: HostRuntime) -> Result<(), Fail> {
    let all = all_left(rt.alloc())?;
    let before = (2, 2, false);
    let between = (2, 3, false);
    let mut wanted = vec![in rt.alloc(); before; 9]?;
    wanted.extend_from_slice(&[between, between, (3, 3, true)])?;
    assert!(rt; all.as_slice() == wanted.as_slice());
    Ok(())
}

// The bytes of an image of a disk, with the record where it isn't there.
fn gone_on(
    alloc: Global,
    disk: &MemoryDisk,
    pick: u64,
    entry: &TickRecord,
) -> Result<Vec<u8>, Fail> {
    let mut image = disk.crash(alloc, pick)?;
    if standing(alloc, image.bytes())? == 3 {
        return match Journal::recover(alloc, &mut image) {
            Ok(_) => Ok(Vec::from_slice(alloc, image.bytes())?),
            Err(_) => Err("not recovered".into()),
        };
    }
    added(alloc, image.bytes(), entry)
}

// Whether the next start on the image of the least, of what a read gives, and of two of the greatest comes to
// a journal as long as this one, with its world and two records. (A gate that was torn may stay another open
// one.)
fn all_go_on(
    alloc: Global,
    disk: &MemoryDisk,
    entry: &TickRecord,
    journal: &[u8],
) -> Result<bool, Fail> {
    for pick in [0, 1, 2, 255] {
        let bytes = gone_on(alloc, disk, pick, entry)?;
        if bytes.len() != journal.len() || standing(alloc, &bytes)? != 3 {
            return Ok(false);
        }
    }
    Ok(true)
}

// Whether that is so wherever an addition stops.
fn all_stops_go_on(alloc: Global) -> Result<bool, Fail> {
    let bytes = torn_journal(alloc)?;
    let entry = record_of(alloc, 5, &[])?;
    let journal = journal_of(alloc, &[4, 5])?;
    for stop in 0..12 {
        let (disk, _) = added_until(alloc, &bytes, &entry, stop)?;
        if !all_go_on(alloc, &disk, &entry, &journal)? {
            return Ok(false);
        }
    }
    Ok(true)
}

#[test]
fn the_next_start_goes_on_from_each_stop(rt: HostRuntime) -> Result<(), Fail> {
    assert!(rt; all_stops_go_on(rt.alloc())?);
    Ok(())
}
