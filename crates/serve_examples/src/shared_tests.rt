// The serving of a world for words, over devices in memory and a door of links in memory.
use crate::serving::{LOOP, run_journal, world, world_of};
use run_status::Status;
use shared_serve::serve_shared;
use std::alloc::{AllocError, Global};
use std::sync::Wait;
use std::sync::atomic::{AtomicU64, Ordering};
use std::test::Fail;
use std::thread;
use std::thread::Threads;
use world_io::{MemoryDisk, MemorySource};
use world_journal::Journal;
use world_link::{Door, MemoryLink, Pace};

// A door that gives links on which player 3 uploads the module, and counts them.
#[derive(Drop)]
struct Uploading {
    alloc: Global,
    given: AtomicU64,
}

impl Uploading {
    fn link(&self) -> Result<MemoryLink, AllocError> {
        let alloc = self.alloc;
        let mut asked = Vec::from_slice(alloc, b"UPLOAD 3 abc 34\n")?;
        asked.extend_from_slice(LOOP)?;
        asked.extend_from_slice(b"QUIT\n")?;
        Ok(MemoryLink::new(alloc, asked, Vec::new(alloc), Vec::new(alloc)))
    }
}

impl Door for Uploading {
    type Line = MemoryLink;

    fn next(&self) -> Option<MemoryLink> {
        self.given.fetch_add(1, Ordering::SeqCst);
        self.link().ok()
    }
}

// A pace that waits for a while until so many links were given.
#[derive(Drop)]
struct Until<'a> {
    door: &'a Uploading,
    given: u64,
}

impl<'a> Pace for Until<'a> {
    fn wait(&mut self) {
        for _ in 0..10_000_000 {
            if self.door.given.load(Ordering::SeqCst) >= self.given {
                return;
            }
            thread::yield_now();
        }
    }
}

// What is outside: the text of the world and the bytes of the disk, and the calls that fail of each.
#[derive(Clone, Copy)]
struct Outside<'a> {
    text: &'a str,
    text_fails: &'a [u64],
    disk: &'a [u8],
    disk_fails: &'a [u64],
}

// How serving ended, with the bytes that are left on the disk, and how many links were given.
#[derive(Drop)]
struct Ended {
    status: Status,
    journal: Vec<u8>,
    given: u64,
}

fn serve_said<R: Threads + Wait + Sync>(
    rt: &R,
    alloc: Global,
    said: &[&str],
    outside: Outside<'_>,
    until: u64,
) -> Result<Ended, Fail> {
    if outside.disk.len() > 1_000_000 {
        return Err("too much".into());
    }
    let mut words = Vec::new(alloc);
    for word in said {
        words.push(String::from_str(alloc, word)?)?;
    }
    let text = Vec::from_slice(alloc, outside.text.as_bytes())?;
    let mut world = MemorySource::new(text, Vec::from_slice(alloc, outside.text_fails)?);
    let bytes = Vec::from_slice(alloc, outside.disk)?;
    let mut disk = MemoryDisk::new(bytes, Vec::from_slice(alloc, outside.disk_fails)?, None);
    let door = Uploading {
        alloc,
        given: AtomicU64::new(0),
    };
    let status = serve_shared(
        rt,
        alloc,
        &words,
        &mut world,
        &mut disk,
        &door,
        &mut Until {
            door: &door,
            given: until,
        },
    );
    Ok(Ended {
        status,
        journal: Vec::from_slice(alloc, disk.bytes())?,
        given: door.given.load(Ordering::SeqCst),
    })
}

const TWO_TICKS: [&str; 9] = [
    "serve", "w.json", "j.bin", "--ticks", "2", "--links", "0", "--port", "7",
];

#[test]
fn a_journal_is_begun_and_gone_on_with(rt: HostRuntime) -> Result<(), Fail> {
    let text = world(rt.alloc())?;
    let outside = Outside {
        text: text.as_str(),
        text_fails: &[],
        disk: &[],
        disk_fails: &[],
    };
    let begun = serve_said(&rt, rt.alloc(), &TWO_TICKS, outside, 0)?;
    assert!(rt; begun.status == Status::Done && begun.given == 0);
    let two = run_journal(rt.alloc(), "2", &[])?;
    assert!(rt; begun.journal.as_slice() == two.as_slice());
    let disk = begun.journal.as_slice();
    let on = serve_said(&rt, rt.alloc(), &TWO_TICKS, Outside { disk, ..outside }, 0)?;
    let four = run_journal(rt.alloc(), "4", &[])?;
    assert!(rt; on.status == Status::Done && on.journal.as_slice() == four.as_slice());
    Ok(())
}

#[test]
fn inputs_are_refused_in_their_order(rt: HostRuntime) -> Result<(), Fail> {
    let text = world(rt.alloc())?;
    let outside = Outside {
        text: text.as_str(),
        text_fails: &[],
        disk: b"\x01junk",
        disk_fails: &[],
    };
    let usage = serve_said(
        &rt,
        rt.alloc(),
        &TWO_TICKS[..3],
        Outside {
            text: "{",
            ..outside
        },
        0,
    )?;
    assert!(rt; usage.status == Status::Usage && usage.journal.as_slice() == outside.disk);
    let fault = serve_said(
        &rt,
        rt.alloc(),
        &TWO_TICKS,
        Outside {
            text: "{",
            ..outside
        },
        0,
    )?;
    assert!(rt; matches!(fault.status, Status::World(_)));
    let failed = Outside {
        text_fails: &[0],
        ..outside
    };
    let unread = serve_said(&rt, rt.alloc(), &TWO_TICKS, failed, 0)?;
    assert!(rt; unread.status == Status::ReadFault);
    let junk = serve_said(&rt, rt.alloc(), &TWO_TICKS, outside, 0)?;
    assert!(rt; matches!(junk.status, Status::NotAJournal(_)));
    assert!(rt; junk.journal.as_slice() == outside.disk);
    let disk_fails = &[0];
    let fallen = serve_said(
        &rt,
        rt.alloc(),
        &TWO_TICKS,
        Outside {
            disk_fails,
            ..outside
        },
        0,
    )?;
    assert!(rt; fallen.status == Status::DiskFault);
    Ok(())
}

#[test]
fn a_journal_of_another_world_is_refused(rt: HostRuntime) -> Result<(), Fail> {
    let kept = run_journal(rt.alloc(), "1", &[3])?;
    let text = world_of(rt.alloc(), 1002)?;
    let outside = Outside {
        text: text.as_str(),
        text_fails: &[],
        disk: kept.as_slice(),
        disk_fails: &[],
    };
    let other = serve_said(&rt, rt.alloc(), &TWO_TICKS, outside, 0)?;
    assert!(rt; matches!(other.status, Status::OtherWorld { .. }));
    assert!(rt; other.journal.as_slice() == kept.as_slice());
    Ok(())
}

// (Of five links by four loops one is over when the fifth is given: its upload waits then.)
#[test]
fn players_upload_beside_the_ticks(rt: HostRuntime) -> Result<(), Fail> {
    let text = world(rt.alloc())?;
    let outside = Outside {
        text: text.as_str(),
        text_fails: &[],
        disk: &[],
        disk_fails: &[],
    };
    let words = [
        "serve",
        "w.json",
        "j.bin",
        "--ticks",
        "1",
        "--links",
        "5",
        "--port",
        "7",
        "--workers",
        "2",
    ];
    let served = serve_said(&rt, rt.alloc(), &words, outside, 5)?;
    assert!(rt; served.status == Status::Done && served.given == 5);
    if served.journal.len() > 1_000_000 {
        return Err("too much".into());
    }
    let mut disk = MemoryDisk::new(served.journal, Vec::new(rt.alloc()), None);
    match Journal::recover(rt.alloc(), &mut disk) {
        Ok(found) => assert!(rt;
            found.uploads.as_slice().iter().any(|count| count.player == 3
                && count.uploads > 0
                && count.last == 0)
        ),
        Err(_) => assert!(rt; false),
    }
    Ok(())
}
