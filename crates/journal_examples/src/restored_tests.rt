// Worlds that go on from a journal: its modules are linked again and run, and the journal takes the next
// record.
ghost use Rattle.std.specs.Prelude.{◌<◌, ◌-◌, ◌^◌, IsTrue, IfOk};
ghost use Rattle.hosted_tick.specs.Hosting.{IsHosted};
ghost use Rattle.world_rules.specs.Sound.{HaveSerials};

use crate::journals::{FIRST, added, disk_of, journal_of, record_of};
use hosted_tick::{Hosted, Ticked};
use intent_book::{PlayerRun, RunOutcome};
use judged_uploads::JudgedUploads;
use object_store::World;
use recorded_tick::{courses_can_be_hosted, courses_have_accepted_modules, record_tick};
use std::alloc::Global;
use std::test::Fail;
use tick_journal::TickRecord;
use upload_stream::Uploads;
use world_journal::{AppendFault, Journal, span};

// The last world of a journal with its modules.
fn restored(alloc: Global, bytes: &[u8]) -> Result<Hosted, Fail>
    ensures { IfOk result (λ hosted. IsHosted hosted.world) }
{
    let mut disk = disk_of(alloc, bytes, None)?;
    let Ok(found) = Journal::recover(alloc, &mut disk) else {
        return Err("not recovered".into());
    };
    courses_can_be_hosted();
    courses_have_accepted_modules();
    Ok(Hosted::restored(alloc, found.world, found.modules)?)
}

// Whether no room has used up its serials.
fn have_serials(world: &World) -> bool
    ensures { IsTrue result → HaveSerials world.now.rooms }
{
    world
        .room_list()
        .iter()
        .all(|room| room.table.next() <= 4_293_918_720)
}

// The tick after a world, without uploads.
fn ticked(alloc: Global, hosted: Hosted) -> Result<Ticked<'static>, Fail>
    requires hosted { IsHosted hosted.world }
    requires tick { hosted.world.tick < 2 ^ 64 - 1 }
    requires serials { HaveSerials hosted.world.rooms }
{
    let Ok(none) = Uploads::read(&[]) else {
        return Err("no stream".into());
    };
    Ok(hosted.tick(alloc, &player_runs::InTurn, &room_step::InTurn, none)?)
}

// The record of a tick to this world, without uploads.
fn recorded(
    alloc: Global,
    before: &World,
    after: &World,
    runs: Vec<PlayerRun>,
) -> Result<TickRecord, Fail> {
    if before.rooms() != after.rooms() || before.accounts() != after.accounts() {
        return Err("not as many".into());
    }
    Ok(record_tick(alloc, before, after, Vec::new(alloc), runs)?)
}

// The record of a tick that had no uploads.
fn record_after(alloc: Global, before: &World, ticked: Ticked) -> Result<TickRecord, Fail> {
    let Ticked {
        hosted,
        uploads,
        runs,
    } = ticked;
    if uploads.count() > 0 {
        return Err("uploads".into());
    }
    recorded(alloc, before, hosted.world(), runs)
}

// The record of the tick after a journal's last world, without uploads.
fn next_record(alloc: Global, bytes: &[u8]) -> Result<TickRecord, Fail> {
    let hosted = restored(alloc, bytes)?;
    if hosted.world().tick() > 9 || !have_serials(hosted.world()) {
        return Err("used up".into());
    }
    let before = hosted.world().copy(alloc)?;
    record_after(alloc, &before, ticked(alloc, hosted)?)
}

// The player and the outcome of a run of a record.
fn run_of(entry: &TickRecord, place: usize) -> Option<(u32, RunOutcome)> {
    let run = entry.runs.as_slice().get(place)?;
    Some((run.player, run.outcome))
}

// The ticks of the first and the last world of these bytes.
fn span_of(alloc: Global, bytes: &[u8]) -> Result<Option<(u64, u64)>, Fail> {
    let mut disk = disk_of(alloc, bytes, None)?;
    Ok(span(alloc, &mut disk).ok())
}

// Those of a journal with the record.
fn span_with(alloc: Global, bytes: &[u8], entry: &TickRecord) -> Result<Option<(u64, u64)>, Fail> {
    span_of(alloc, &added(alloc, bytes, entry)?)
}

#[test]
fn modules_of_a_journal_run_again(rt: HostRuntime) -> Result<(), Fail> {
    let alloc = rt.alloc();
    let bytes = journal_of(alloc, &[4, 5])?;
    let entry = next_record(alloc, &bytes)?;
    assert!(rt; (entry.tick, entry.runs.as_slice().len()) == (6, 2));
    // (the latest module of player 7)
    assert!(rt; run_of(&entry, 0) == Some((7, RunOutcome::Trapped(1))));
    assert!(rt; run_of(&entry, 1) == Some((9, RunOutcome::Finished)));
    assert!(rt; span_with(alloc, &bytes, &entry)? == Some((FIRST, 6)));
    Ok(())
}

// No uploads, as a tick gives them.
fn no_uploads(alloc: Global) -> Result<JudgedUploads<'static>, Fail> {
    let Ok(none) = Uploads::read(&[]) else {
        return Err("no stream".into());
    };
    let mut left = none.copy();
    let None = left.next() else {
        return Err("uploads".into());
    };
    Ok(JudgedUploads::new(none, Vec::new(alloc)))
}

// Whether the disk fails, from a call on, at the addition of a tick behind a journal, with its uploads lent,
// and the journal then adds nothing more.
fn is_closed_by(
    alloc: Global,
    bytes: &[u8],
    uploads: &JudgedUploads,
    entry: &TickRecord,
    stop: u64,
) -> Result<bool, Fail> {
    if !entry.uploads.as_slice().is_empty() {
        return Err("uploads".into());
    }
    let mut disk = disk_of(alloc, bytes, Some(stop))?;
    let Ok(mut found) = Journal::recover(alloc, &mut disk) else {
        return Ok(false);
    };
    let journal = &mut found.journal;
    let first = journal.append_judged(alloc, &mut disk, uploads, entry);
    Ok(
        first == Err(AppendFault::DiskFault)
            && journal.append_judged(alloc, &mut disk, uploads, entry) == Err(AppendFault::Closed),
    )
}

// Whether that is so for one of the first calls of the disk.
fn is_closed_once(alloc: Global, bytes: &[u8], entry: &TickRecord) -> Result<bool, Fail> {
    let uploads = no_uploads(alloc)?;
    for stop in 0..40 {
        if is_closed_by(alloc, bytes, &uploads, entry, stop)? {
            return Ok(true);
        }
    }
    Ok(false)
}

#[test]
fn a_journal_adds_no_tick_after_a_fault(rt: HostRuntime) -> Result<(), Fail> {
    let alloc = rt.alloc();
    let bytes = journal_of(alloc, &[4])?;
    let entry = record_of(alloc, 5, &[])?;
    assert!(rt; is_closed_once(alloc, &bytes, &entry)?);
    Ok(())
}
