// Runs by two workers over devices in memory, with a gate that holds a job until another one has begun.
use shared_run::run_shared;
use std::alloc::{AllocError, Global};
use std::process::Abort;
use std::sync::atomic::{AtomicU64, Ordering};
use std::test::*;
use std::thread;
use std::thread::Threads;
use world_io::{Gate, MemoryDisk, MemorySink, MemorySource};
use world_run::run_alone;
use world_tools::Status;

// (module (func (export "loop")))
const LOOP: &[u8] =
    b"\0asm\x01\0\0\0\x01\x04\x01\x60\0\0\x03\x02\x01\0\x07\x08\x01\x04loop\0\0\x0a\x04\x01\x02\0\x0b";

// Holds each job 0 until a job 1 has begun, and writes down who passed with which job.
#[derive(Drop)]
struct Holds {
    begun: AtomicU64,
    held_out: AtomicU64,
    count: AtomicU64,
    passes: [AtomicU64; 4],
}

impl Holds {
    fn new() -> Self {
        Holds {
            begun: AtomicU64::new(0),
            held_out: AtomicU64::new(0),
            count: AtomicU64::new(0),
            passes: [
                AtomicU64::new(0),
                AtomicU64::new(0),
                AtomicU64::new(0),
                AtomicU64::new(0),
            ],
        }
    }

    // The worker and the job of a pass.
    fn pass_at(&self, place: usize) -> (u64, u64) {
        match self.passes.get(place) {
            Some(pass) => {
                let both = pass.load(Ordering::SeqCst);
                (both / 1_000, both % 1_000)
            }
            None => (0, 0),
        }
    }
}

impl Gate for Holds {
    fn pass(&self, worker: u32, k: u32) {
        let place = self.count.fetch_add(1, Ordering::SeqCst);
        if let Some(pass) = self.passes.get(place as usize) {
            pass.store(u64::from(worker) * 1_000 + u64::from(k), Ordering::SeqCst);
        }
        if k == 1 {
            self.begun.store(1, Ordering::SeqCst);
        }
        if k == 0 {
            for _ in 0..10_000_000 {
                if self.begun.load(Ordering::SeqCst) == 1 {
                    return;
                }
                thread::yield_now();
            }
            self.held_out.store(1, Ordering::SeqCst);
        }
    }
}

// How a run ended, with what it printed and left on the disk.
#[derive(Drop)]
struct Ended {
    status: Status,
    printed: Vec<u8>,
    journal: Vec<u8>,
}

fn words(alloc: Global, workers: &[&str]) -> Result<Vec<String>, AllocError> {
    let mut words = Vec::new(alloc);
    for word in ["run", "w.json", "u.bin", "j.bin", "--ticks", "1"] {
        words.push(String::from_str(alloc, word)?)?;
    }
    for word in workers {
        words.push(String::from_str(alloc, word)?)?;
    }
    Ok(words)
}

// The end of a run, with what was printed and left on the disk.
fn end_of(
    alloc: Global,
    status: Status,
    out: &MemorySink,
    disk: &MemoryDisk,
) -> Result<Ended, AllocError> {
    let printed = Vec::from_slice(alloc, out.written())?;
    Ok(Ended {
        status,
        printed,
        journal: Vec::from_slice(alloc, disk.bytes())?,
    })
}

// One tick by two workers.
fn shared<R: Threads + Sync>(
    rt: &R,
    alloc: Global,
    world: &str,
    stream: &[u8],
    gate: &Holds,
) -> Result<Ended, AllocError> {
    let words = words(alloc, &["--workers", "2"])?;
    let text = Vec::from_slice(alloc, world.as_bytes())?;
    let mut world = MemorySource::new(text, Vec::new(alloc));
    let stream = Vec::from_slice(alloc, stream)?;
    let mut uploads = MemorySource::new(stream, Vec::new(alloc));
    let mut out = MemorySink::new(alloc, Vec::new(alloc));
    let mut disk = MemoryDisk::new(Vec::new(alloc), Vec::new(alloc), None);
    let status = run_shared(
        rt,
        alloc,
        &words,
        &mut world,
        &mut uploads,
        &mut out,
        &mut disk,
        gate,
    );
    end_of(alloc, status, &out, &disk)
}

// One tick by one worker, with these words behind the others.
fn alone(alloc: Global, world: &str, stream: &[u8], workers: &[&str]) -> Result<Ended, AllocError> {
    let words = words(alloc, workers)?;
    let text = Vec::from_slice(alloc, world.as_bytes())?;
    let mut world = MemorySource::new(text, Vec::new(alloc));
    let stream = Vec::from_slice(alloc, stream)?;
    let mut uploads = MemorySource::new(stream, Vec::new(alloc));
    let mut out = MemorySink::new(alloc, Vec::new(alloc));
    let mut disk = MemoryDisk::new(Vec::new(alloc), Vec::new(alloc), None);
    let status = run_alone(alloc, &words, &mut world, &mut uploads, &mut out, &mut disk);
    end_of(alloc, status, &out, &disk)
}

// A room of this name on plain ground with walls at the corners, with a source of this id that is renewed at
// once, and a pile of 1,001.
fn room(alloc: Global, name: &str, source: u64, pile: u64) -> Result<String, AllocError> {
    // (tiles of plain ground: a zero that is padded to so many)
    let plain = 0;
    let ground = format!(in alloc; "1{plain:048}1{plain:02400}1{plain:048}1")?;
    let source = format!(in alloc;
        "{{\"id\":{source},\"kind\":\"source\",\"x\":10,\"y\":10,\"timer\":1}}"
    )?;
    let pile = format!(in alloc;
        "{{\"id\":{pile},\"kind\":\"pile\",\"x\":20,\"y\":20,\"energy\":1001}}"
    )?;
    format!(in alloc;
        "{{\"name\":\"{name}\",\"terrain\":\"{ground}\",\"next\":3,\"objects\":[{source},{pile}]}}"
    )
}

// A world of two rooms without players.
fn two_rooms(alloc: Global) -> Result<String, AllocError> {
    let one = room(alloc, "E0S0", 1, 2)?;
    let other = room(alloc, "E2S0", 4_294_967_297, 4_294_967_298)?;
    format!(in alloc; "{{\"version\":1,\"tick\":0,\"rooms\":[{one},{other}]}}")
}

// A world of one room and two players.
fn two_players(alloc: Global) -> Result<String, AllocError> {
    let only = room(alloc, "E0S0", 1, 2)?;
    let players = "{\"player\":1,\"limit\":20},{\"player\":2,\"limit\":20}";
    format!(in alloc; "{{\"version\":1,\"tick\":0,\"rooms\":[{only}],\"players\":[{players}]}}")
}

// An upload of the module at tick 0 by each of both players.
fn two_uploads(alloc: Global) -> Result<Vec<u8>, AllocError> {
    let mut stream = Vec::new(alloc);
    for player in [1_u8, 2] {
        stream.extend_from_slice(&[0; 8])?;
        stream.extend_from_slice(&[player, 0, 0, 0])?;
        stream.extend_from_slice(&[LOOP.len() as u8, 0, 0, 0])?;
        stream.extend_from_slice(LOOP)?;
    }
    Ok(stream)
}

// The ends are alike.
fn assert_alike<R: Abort>(rt: &R, one: &Ended, other: &Ended) {
    assert!(rt; one.status == other.status);
    assert!(rt; one.printed.as_slice() == other.printed.as_slice());
    assert!(rt; one.journal.as_slice() == other.journal.as_slice());
}

// Two workers passed first, each with one of the jobs 0 and 1, and nobody waited in vain.
fn assert_two_passed<R: Abort>(rt: &R, gate: &Holds) {
    let (one, first) = gate.pass_at(0);
    let (other, second) = gate.pass_at(1);
    assert!(rt; (first, second) == (0, 1) || (first, second) == (1, 0));
    assert!(rt; (one, other) == (0, 1) || (one, other) == (1, 0));
    assert!(rt; gate.held_out.load(Ordering::SeqCst) == 0);
}

#[test]
fn two_workers_step_two_rooms(rt: HostRuntime) -> Result<(), Fail> {
    let world = two_rooms(rt.alloc())?;
    let gate = Holds::new();
    let ended = shared(&rt, rt.alloc(), world.as_str(), &[], &gate)?;
    assert!(rt; ended.status == Status::Done);
    assert!(rt;
        ended.printed.as_slice()
            == b"start tick 0 rooms 2 objects 4 players 0\ntick 1 objects 4 intents 0 energy 4998\n".as_slice()
    );
    assert_two_passed(&rt, &gate);
    assert!(rt; gate.count.load(Ordering::SeqCst) == 2);
    assert_alike(
        &rt,
        &ended,
        &alone(rt.alloc(), world.as_str(), &[], &["--workers", "1"])?,
    );
    Ok(())
}

#[test]
fn two_workers_run_two_players(rt: HostRuntime) -> Result<(), Fail> {
    let world = two_players(rt.alloc())?;
    let stream = two_uploads(rt.alloc())?;
    let gate = Holds::new();
    let ended = shared(&rt, rt.alloc(), world.as_str(), &stream, &gate)?;
    assert!(rt; ended.status == Status::Done);
    assert_two_passed(&rt, &gate);
    let (_, third) = gate.pass_at(2);
    assert!(rt; (third, gate.count.load(Ordering::SeqCst)) == (0, 3));
    assert_alike(
        &rt,
        &ended,
        &alone(rt.alloc(), world.as_str(), &stream, &[])?,
    );
    Ok(())
}

#[test]
fn one_worker_takes_no_words_for_two(rt: HostRuntime) -> Result<(), Fail> {
    let world = two_rooms(rt.alloc())?;
    let ended = alone(rt.alloc(), world.as_str(), &[], &["--workers", "2"])?;
    assert!(rt; ended.status == Status::Usage);
    assert!(rt; (ended.printed.len(), ended.journal.len()) == (0, 0));
    Ok(())
}
