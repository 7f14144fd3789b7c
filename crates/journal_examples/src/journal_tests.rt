// A journal on a disk in memory: what is written is read back, and each answer once, but those for want of
// memory.
use crate::journals::{FIRST, added, disk_of, journal_of, record_of};
use crate::worlds::{PARTS, TRAPPED, world_of};
use object_store::World;
use std::alloc::{AllocError, Global};
use std::test::Fail;
use tick_journal::TickRecord;
use world_journal::{
    AppendFault, AtFault, Journal, Modules, RecoverFault, Recovered, UploadCounts, Walk, records,
    span, tick_at, world_at,
};

// What is found on a disk of these bytes.
fn recovered(alloc: Global, bytes: &[u8]) -> Result<Recovered, Fail> {
    let mut disk = disk_of(alloc, bytes, None)?;
    match Journal::recover(alloc, &mut disk) {
        Ok(found) => Ok(found),
        Err(_) => Err("not recovered".into()),
    }
}

// The ticks of the first and the last world of these bytes.
fn span_of(alloc: Global, bytes: &[u8]) -> Result<(u64, u64), Fail> {
    let mut disk = disk_of(alloc, bytes, None)?;
    match span(alloc, &mut disk) {
        Ok(ticks) => Ok(ticks),
        Err(_) => Err("no journal".into()),
    }
}

// What is found of a journal of two records.
fn two_recovered(alloc: Global) -> Result<Recovered, Fail> {
    recovered(alloc, &journal_of(alloc, &[4, 5])?)
}

// Whether there are two modules, that of player 7 his latest.
fn has_latest(modules: &Modules) -> bool {
    match modules.get(&7) {
        Some(latest) => modules.len() == 2 && latest.as_slice() == TRAPPED.as_slice(),
        None => false,
    }
}

#[test]
fn a_journal_is_recovered(rt: HostRuntime) -> Result<(), Fail> {
    let found = two_recovered(rt.alloc())?;
    assert!(rt; (found.base.tick(), found.world.tick()) == (FIRST, 5));
    assert!(rt; has_latest(&found.modules));
    Ok(())
}

// The player, the number of uploads and the last result of each count.
fn counts_of(alloc: Global, uploads: &UploadCounts) -> Result<Vec<(u32, u64, u8)>, AllocError> {
    uploads
        .as_slice()
        .iter()
        .map(|count| (count.player, count.uploads, count.last))
        .collect(alloc)
}

// Those of the journal of two records.
fn two_counts(alloc: Global) -> Result<Vec<(u32, u64, u8)>, Fail> {
    Ok(counts_of(alloc, &two_recovered(alloc)?.uploads)?)
}

#[test]
fn uploads_of_a_journal_are_counted(rt: HostRuntime) -> Result<(), Fail> {
    let counts = two_counts(rt.alloc())?;
    assert!(rt; counts.as_slice() == [(7, 3, 0), (9, 2, 4)].as_slice());
    Ok(())
}

// The bytes of this journal with an empty record of the tick.
fn longer(alloc: Global, bytes: &[u8], tick: u64) -> Result<Vec<u8>, Fail> {
    added(alloc, bytes, &record_of(alloc, tick, &[])?)
}

// The span of that.
fn span_of_longer(alloc: Global, bytes: &[u8], tick: u64) -> Result<(u64, u64), Fail> {
    span_of(alloc, &longer(alloc, bytes, tick)?)
}

#[test]
fn a_journal_goes_on(rt: HostRuntime) -> Result<(), Fail> {
    let alloc = rt.alloc();
    let bytes = journal_of(alloc, &[4, 5])?;
    assert!(rt; span_of(alloc, &bytes)? == (FIRST, 5));
    assert!(rt; span_of_longer(alloc, &bytes, 6)? == (FIRST, 6));
    Ok(())
}

// How many bytes are left of these where a journal is recovered.
fn length_recovered(alloc: Global, bytes: &[u8]) -> Result<usize, Fail> {
    let mut disk = disk_of(alloc, bytes, None)?;
    match Journal::recover(alloc, &mut disk) {
        Ok(_) => Ok(disk.bytes().len()),
        Err(_) => Err("not recovered".into()),
    }
}

#[test]
fn what_follows_the_closed_gate_is_cut(rt: HostRuntime) -> Result<(), Fail> {
    let alloc = rt.alloc();
    let mut bytes = journal_of(alloc, &[4])?;
    let len = bytes.len();
    bytes.extend_from_slice(b"torn")?;
    assert!(rt; length_recovered(alloc, &bytes)? == len);
    Ok(())
}

// The tick of the first world, and how many records there are.
fn first_and_records(alloc: Global, bytes: &[u8]) -> Result<(u64, usize), Fail> {
    let mut disk = disk_of(alloc, bytes, None)?;
    match records(alloc, &mut disk) {
        Ok((first, entries)) => Ok((first.tick(), entries.as_slice().len())),
        Err(_) => Err("no records".into()),
    }
}

// The tick of the world that is found of a tick.
fn world_found(alloc: Global, bytes: &[u8], tick: u64) -> Result<u64, Fail> {
    let mut disk = disk_of(alloc, bytes, None)?;
    match world_at(alloc, &mut disk, tick) {
        Ok(world) => Ok(world.tick()),
        Err(_) => Err("no world".into()),
    }
}

// The tick and the number of uploads of the record that is found of a tick.
fn record_found(alloc: Global, bytes: &[u8], tick: u64) -> Result<(u64, usize), Fail> {
    let mut disk = disk_of(alloc, bytes, None)?;
    match tick_at(alloc, &mut disk, tick) {
        Ok(entry) => Ok((entry.tick, entry.uploads.as_slice().len())),
        Err(_) => Err("no record".into()),
    }
}

// The ticks of the worlds that are found of ticks 3 to 5.
fn worlds_found(alloc: Global, bytes: &[u8]) -> Result<[u64; 3], Fail> {
    Ok([
        world_found(alloc, bytes, 3)?,
        world_found(alloc, bytes, 4)?,
        world_found(alloc, bytes, 5)?,
    ])
}

#[test]
fn worlds_and_records_are_found(rt: HostRuntime) -> Result<(), Fail> {
    let alloc = rt.alloc();
    let bytes = journal_of(alloc, &[4, 5])?;
    assert!(rt; first_and_records(alloc, &bytes)? == (FIRST, 2));
    assert!(rt; worlds_found(alloc, &bytes)? == [FIRST, 4, 5]);
    assert!(rt; record_found(alloc, &bytes, 4)? == (4, 6));
    Ok(())
}

// The tick of a record.
fn tick_of(entry: TickRecord) -> u64 {
    entry.tick
}

// The ticks of the worlds that a walk comes to over one record, that of the record, and whether it then
// ends.
fn walked(alloc: Global, bytes: &[u8]) -> Result<(u64, u64, u64, bool), Fail> {
    let mut disk = disk_of(alloc, bytes, None)?;
    let Ok(mut walk) = Walk::begin(alloc, &mut disk) else {
        return Err("no walk".into());
    };
    let first = walk.world().tick();
    let Ok(Some(entry)) = walk.next(alloc, &mut disk) else {
        return Err("no record".into());
    };
    let tick = tick_of(entry);
    let last = walk.world().tick();
    let ends = matches!(walk.next(alloc, &mut disk), Ok(None));
    Ok((first, tick, last, ends))
}

// The same of a walk that tests no rules.
fn walked_untested(alloc: Global, bytes: &[u8]) -> Result<(u64, u64, u64, bool), Fail> {
    let mut disk = disk_of(alloc, bytes, None)?;
    let Ok(walk) = Walk::begin(alloc, &mut disk) else {
        return Err("no walk".into());
    };
    let mut walk = walk.untested();
    let first = walk.world().tick();
    let Ok(Some(entry)) = walk.next(alloc, &mut disk) else {
        return Err("no record".into());
    };
    let tick = tick_of(entry);
    let last = walk.world().tick();
    let ends = matches!(walk.next(alloc, &mut disk), Ok(None));
    Ok((first, tick, last, ends))
}

#[test]
fn a_walk_comes_to_each_record(rt: HostRuntime) -> Result<(), Fail> {
    let alloc = rt.alloc();
    let bytes = journal_of(alloc, &[4])?;
    assert!(rt; walked(alloc, &bytes)? == (FIRST, 4, 4, true));
    assert!(rt; walked_untested(alloc, &bytes)? == (FIRST, 4, 4, true));
    Ok(())
}

// Why a disk of these bytes, of which a call fails, is not recovered.
fn recover_fault(
    alloc: Global,
    bytes: &[u8],
    stop: Option<u64>,
) -> Result<Option<RecoverFault>, Fail> {
    let mut disk = disk_of(alloc, bytes, stop)?;
    Ok(Journal::recover(alloc, &mut disk).err())
}

// Why a walk comes to no first world, or to no first record.
fn walk_fault(
    alloc: Global,
    bytes: &[u8],
    stop: Option<u64>,
) -> Result<Option<RecoverFault>, Fail> {
    let mut disk = disk_of(alloc, bytes, stop)?;
    Ok(match Walk::begin(alloc, &mut disk) {
        Ok(mut walk) => walk.next(alloc, &mut disk).err(),
        Err(fault) => Some(fault),
    })
}

fn span_fault(alloc: Global, bytes: &[u8], stop: Option<u64>) -> Result<Option<AtFault>, Fail> {
    let mut disk = disk_of(alloc, bytes, stop)?;
    Ok(span(alloc, &mut disk).err())
}

fn records_fault(alloc: Global, bytes: &[u8], stop: Option<u64>) -> Result<Option<AtFault>, Fail> {
    let mut disk = disk_of(alloc, bytes, stop)?;
    Ok(records(alloc, &mut disk).err())
}

// Why no world is found of a tick.
fn world_fault(
    alloc: Global,
    bytes: &[u8],
    stop: Option<u64>,
    tick: u64,
) -> Result<Option<AtFault>, Fail> {
    let mut disk = disk_of(alloc, bytes, stop)?;
    Ok(world_at(alloc, &mut disk, tick).err())
}

// Why no record is found of a tick.
fn record_fault(
    alloc: Global,
    bytes: &[u8],
    stop: Option<u64>,
    tick: u64,
) -> Result<Option<AtFault>, Fail> {
    let mut disk = disk_of(alloc, bytes, stop)?;
    Ok(tick_at(alloc, &mut disk, tick).err())
}

// Why no world and no record is found of a tick.
fn tick_faults(
    alloc: Global,
    bytes: &[u8],
    tick: u64,
) -> Result<(Option<AtFault>, Option<AtFault>), Fail> {
    Ok((
        world_fault(alloc, bytes, None, tick)?,
        record_fault(alloc, bytes, None, tick)?,
    ))
}

#[test]
fn other_ticks_are_none_of_the_journal(rt: HostRuntime) -> Result<(), Fail> {
    let alloc = rt.alloc();
    let bytes = journal_of(alloc, &[4, 5])?;
    let outside = Some(AtFault::NoSuchTick {
        first: FIRST,
        last: 5,
    });
    for (tick, world, record) in [
        (2, outside, outside),
        (FIRST, None, outside),
        (6, outside, outside),
    ] {
        assert!(rt; tick_faults(alloc, &bytes, tick)? == (world, record));
    }
    Ok(())
}

// Why a disk of these bytes is not recovered, and why nothing is found on it, whichever call looks.
fn faults_of(
    alloc: Global,
    bytes: &[u8],
    stop: Option<u64>,
) -> Result<(Option<RecoverFault>, Option<AtFault>), Fail> {
    let recovered = recover_fault(alloc, bytes, stop)?;
    let fault = span_fault(alloc, bytes, stop)?;
    let is_told = walk_fault(alloc, bytes, stop)? == recovered
        && records_fault(alloc, bytes, stop)? == fault
        && world_fault(alloc, bytes, stop, FIRST)? == fault
        && record_fault(alloc, bytes, stop, FIRST + 1)? == fault;
    if !is_told {
        return Err("told otherwise".into());
    }
    Ok((recovered, fault))
}

#[test]
fn bytes_that_are_no_journal_are_refused(rt: HostRuntime) -> Result<(), Fail> {
    let alloc = rt.alloc();
    let empty = (Some(RecoverFault::Empty), Some(AtFault::NoJournal));
    for bytes in [b"".as_slice(), &[1], &[0, 9]] {
        assert!(rt; faults_of(alloc, bytes, None)? == empty);
    }
    let front = (
        Some(RecoverFault::NotAJournal(0)),
        Some(AtFault::NotAJournal(0)),
    );
    for bytes in [b"\x01\0".as_slice(), b"\x01\0\0\0\0\0\0\0\0\0"] {
        assert!(rt; faults_of(alloc, bytes, None)? == front);
    }
    Ok(())
}

#[test]
fn a_record_that_does_not_follow_is_refused_at_its_gate(rt: HostRuntime) -> Result<(), Fail> {
    let alloc = rt.alloc();
    let gate = journal_of(alloc, &[])?.len() as u64;
    assert!(rt; gate >= 1);
    let skipped = journal_of(alloc, &[5])?;
    let refused = (
        Some(RecoverFault::NotAJournal(gate - 1)),
        Some(AtFault::NotAJournal(gate - 1)),
    );
    assert!(rt; faults_of(alloc, &skipped, None)? == refused);
    Ok(())
}

// Why no journal is made on a disk that stops.
fn create_fault(alloc: Global, base: &World, stop: u64) -> Result<Option<AppendFault>, Fail> {
    let mut disk = disk_of(alloc, &[], Some(stop))?;
    Ok(Journal::create(alloc, &mut disk, base).err())
}

#[test]
fn a_disk_that_fails_is_told(rt: HostRuntime) -> Result<(), Fail> {
    let alloc = rt.alloc();
    let bytes = journal_of(alloc, &[4])?;
    let faults = (Some(RecoverFault::DiskFault), Some(AtFault::DiskFault));
    assert!(rt; faults_of(alloc, &bytes, Some(0))? == faults);
    let base = world_of(alloc, FIRST, PARTS)?;
    assert!(rt; create_fault(alloc, &base, 0)? == Some(AppendFault::DiskFault));
    Ok(())
}

// Whether a journal is made on a disk that stops, which then fails at a record, so that the next one is told
// that the journal is closed.
fn is_closed_by(alloc: Global, base: &World, entry: &TickRecord, stop: u64) -> Result<bool, Fail> {
    let mut disk = disk_of(alloc, &[], Some(stop))?;
    let Ok(mut journal) = Journal::create(alloc, &mut disk, base) else {
        return Ok(false);
    };
    Ok(
        journal.append(alloc, &mut disk, entry) == Err(AppendFault::DiskFault)
            && journal.append(alloc, &mut disk, entry) == Err(AppendFault::Closed),
    )
}

#[test]
fn a_journal_adds_nothing_after_a_fault(rt: HostRuntime) -> Result<(), Fail> {
    let alloc = rt.alloc();
    let base = world_of(alloc, FIRST, PARTS)?;
    let entry = record_of(alloc, 4, &[])?;
    // (a length, and three writes with their syncs, make a journal)
    assert!(rt; is_closed_by(alloc, &base, &entry, 6)?);
    Ok(())
}

#[test]
fn faults_of_recovery_have_their_names(rt: HostRuntime) -> Result<(), Fail> {
    for (fault, name) in [
        (RecoverFault::Empty, "Empty"),
        (RecoverFault::DiskFault, "DiskFault"),
        (RecoverFault::NotAJournal(7), "NotAJournal"),
        (RecoverFault::Memory, "Memory"),
    ] {
        assert!(rt; format!(in rt.alloc(); "{fault}")?.as_str() == name);
    }
    Ok(())
}

#[test]
fn faults_of_additions_have_their_names(rt: HostRuntime) -> Result<(), Fail> {
    for (fault, name) in [
        (AppendFault::DiskFault, "DiskFault"),
        (AppendFault::Closed, "Closed"),
        (AppendFault::Memory, "Memory"),
    ] {
        assert!(rt; format!(in rt.alloc(); "{fault}")?.as_str() == name);
    }
    Ok(())
}

#[test]
fn faults_of_ticks_have_their_names(rt: HostRuntime) -> Result<(), Fail> {
    for (fault, name) in [
        (AtFault::NoJournal, "NoJournal"),
        (AtFault::NoSuchTick { first: 1, last: 2 }, "NoSuchTick"),
        (AtFault::DiskFault, "DiskFault"),
        (AtFault::NotAJournal(7), "NotAJournal"),
        (AtFault::Memory, "Memory"),
    ] {
        assert!(rt; format!(in rt.alloc(); "{fault}")?.as_str() == name);
    }
    Ok(())
}
