// Served ticks: what they record, what they tell, and what a failed disk leaves.
use crate::serving::{Served, run_journal, serve};
use run_status::Status;
use std::alloc::Global;
use std::sync::Wait;
use std::test::Fail;
use std::thread::Threads;
use world_hub::Summary;

// Whether this is told of a tick, the energy, and of each player how many uploads he sent.
fn tells(told: &Summary, tick: u64, energy: u64, uploads: [Option<u64>; 2]) -> bool {
    told.tick == tick
        && told.rooms == 1
        && told.objects == 2
        && told.energy == energy
        && [
            told.line(1).map(|l| l.uploads),
            told.line(3).map(|l| l.uploads),
        ] == uploads
        && told.line(2).is_none()
}

// What comes of serving on a disk that holds.
fn serve_well<R: Threads + Wait + Sync>(
    rt: &R,
    alloc: Global,
    journal: &[u8],
    players: &[u32],
    ticks: u64,
) -> Result<Served, Fail> {
    match serve(rt, alloc, journal, &[], players, ticks)? {
        Some(served) => Ok(served),
        None => Err("not recovered".into()),
    }
}

#[test]
fn a_served_tick_is_recorded_as_a_run_one_and_told(rt: HostRuntime) -> Result<(), Fail> {
    let begun = run_journal(rt.alloc(), "0", &[])?;
    let run = run_journal(rt.alloc(), "1", &[3, 1])?;
    let served = serve_well(&rt, rt.alloc(), begun.as_slice(), &[3, 1], 1)?;
    assert!(rt; served.status == Status::Done);
    assert!(rt; served.waits == 1);
    assert!(rt; tells(&served.opening, 0, 1001, [Some(0), Some(0)]));
    assert!(rt; tells(&served.told, 1, 2499, [Some(1), Some(1)]));
    assert_eq!(rt; served.opening.line(3).map(|l| l.last), Some(255));
    assert_eq!(rt; served.told.line(3).map(|l| l.last), Some(0));
    assert_eq!(rt; served.told.line(1).map(|l| l.last), Some(0));
    assert!(rt; served.journal.as_slice() == run.as_slice());
    Ok(())
}

#[test]
fn uploads_are_taken_once_and_counted_from_the_journal_on(rt: HostRuntime) -> Result<(), Fail> {
    let begun = run_journal(rt.alloc(), "1", &[3])?;
    let run = run_journal(rt.alloc(), "3", &[3])?;
    let on = serve_well(&rt, rt.alloc(), begun.as_slice(), &[], 2)?;
    assert!(rt; on.status == Status::Done && on.waits == 2);
    assert!(rt; tells(&on.opening, 1, 2499, [Some(0), Some(1)]));
    assert!(rt; on.told.tick == 3);
    assert_eq!(rt; on.told.line(3).map(|l| l.uploads), Some(1));
    assert!(rt; on.journal.as_slice() == run.as_slice());
    let twice = serve_well(&rt, rt.alloc(), begun.as_slice(), &[3, 3], 2)?;
    assert_eq!(rt; twice.told.line(3).map(|l| l.uploads), Some(3));
    Ok(())
}

#[test]
fn no_tick_is_served_where_none_is_asked_for(rt: HostRuntime) -> Result<(), Fail> {
    let begun = run_journal(rt.alloc(), "0", &[])?;
    let served = serve_well(&rt, rt.alloc(), begun.as_slice(), &[3], 0)?;
    assert!(rt; served.status == Status::Done && served.waits == 0 && served.told.tick == 0);
    assert!(rt; served.journal.as_slice() == begun.as_slice());
    Ok(())
}

// (The calls of the disk that come before a tick are those of the recovery, and fail it.)
#[test]
fn a_tick_that_the_disk_fails_is_not_told(rt: HostRuntime) -> Result<(), Fail> {
    let begun = run_journal(rt.alloc(), "0", &[])?;
    let mut failed = 0u32;
    for call in 0..40 {
        if let Some(served) = serve(&rt, rt.alloc(), begun.as_slice(), &[call], &[3], 1)? {
            match served.status {
                Status::DiskFault => {
                    failed = failed.saturating_add(1);
                    assert!(rt; tells(&served.told, 0, 1001, [Some(0), Some(0)]));
                }
                Status::Done => assert!(rt; served.told.tick == 1),
                _ => assert!(rt; false),
            }
        }
    }
    assert!(rt; failed > 1);
    Ok(())
}
