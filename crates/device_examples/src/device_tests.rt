// Runs and checks over devices in memory, of which a call fails.
use std::alloc::{AllocError, Global};
use std::test::Fail;
use world_io::{Disk, Failed, MemoryDisk, MemorySink, MemorySource};
use world_run::run_alone;
use world_tools::{Refusal, Status, tool_main};

// The shortest module.
const OPENING: &[u8] = b"\x00asm\x01\x00\x00\x00";

const START: &[u8] = b"start tick 0 rooms 1 objects 2 players 0\n";

const TICK_1: &[u8] =
    b"start tick 0 rooms 1 objects 2 players 0\ntick 1 objects 2 intents 0 energy 2499\n";

// The numbers of the calls of a run that fail: reads of the world's file and of that of the uploads, writes
// of lines, and calls of the disk.
#[derive(Clone, Copy)]
struct Failing<'a> {
    reads: &'a [u64],
    upload_reads: &'a [u64],
    writes: &'a [u64],
    calls: &'a [u64],
}

const NOTHING: Failing<'static> = Failing {
    reads: &[],
    upload_reads: &[],
    writes: &[],
    calls: &[],
};

// How a run ended, with what it printed and left on the disk.
#[derive(Drop)]
struct Ended {
    status: Status,
    printed: Vec<u8>,
    journal: Vec<u8>,
}

// A room with a source that is renewed at once and a pile of 1,001, on plain ground with walls at the
// corners.
fn small_world(alloc: Global) -> Result<Vec<u8>, AllocError> {
    // (tiles of plain ground: a zero that is padded to so many)
    let plain = 0;
    let ground = format!(in alloc; "1{plain:048}1{plain:02400}1{plain:048}1")?;
    let source = "{\"id\":1,\"kind\":\"source\",\"x\":10,\"y\":10,\"timer\":1}";
    let pile = "{\"id\":2,\"kind\":\"pile\",\"x\":20,\"y\":20,\"energy\":1001}";
    let room = format!(in alloc;
        "{{\"name\":\"E0S0\",\"terrain\":\"{ground}\",\"next\":3,\"objects\":[{source},{pile}]}}"
    )?;
    let text = format!(in alloc; "{{\"version\":1,\"tick\":0,\"rooms\":[{room}]}}")?;
    Ok(text.into_bytes())
}

fn words(alloc: Global, ticks: &str) -> Result<Vec<String>, AllocError> {
    let mut words = Vec::new(alloc);
    for word in ["run", "w.json", "u.bin", "j.bin", "--ticks", ticks] {
        words.push(String::from_str(alloc, word)?)?;
    }
    Ok(words)
}

// The file of the small world, of which these reads fail.
fn world_source(alloc: Global, reads: &[u64]) -> Result<MemorySource, AllocError> {
    let text = small_world(alloc)?;
    Ok(MemorySource::new(text, Vec::from_slice(alloc, reads)?))
}

// A file of no uploads, of which these reads fail.
fn upload_source(alloc: Global, reads: &[u64]) -> Result<MemorySource, AllocError> {
    let reads = Vec::from_slice(alloc, reads)?;
    Ok(MemorySource::new(Vec::new(alloc), reads))
}

// Lines, of which these writes fail.
fn sink(alloc: Global, writes: &[u64]) -> Result<MemorySink, AllocError> {
    Ok(MemorySink::new(alloc, Vec::from_slice(alloc, writes)?))
}

// The end of a run, with copies of these bytes.
fn copied_end(
    alloc: Global,
    status: Status,
    printed: &[u8],
    journal: &[u8],
) -> Result<Ended, AllocError> {
    let printed = Vec::from_slice(alloc, printed)?;
    Ok(Ended {
        status,
        printed,
        journal: Vec::from_slice(alloc, journal)?,
    })
}

// A run on these files and on an empty disk, of which these calls fail.
fn run_over(
    alloc: Global,
    words: &[String],
    world: &mut MemorySource,
    uploads: &mut MemorySource,
    out: &mut MemorySink,
    calls: Vec<u64>,
) -> Result<Ended, AllocError> {
    let mut disk = MemoryDisk::new(Vec::new(alloc), calls, None);
    let status = run_alone(alloc, words, world, uploads, out, &mut disk);
    copied_end(alloc, status, out.written(), disk.bytes())
}

// A run of these words on this world.
fn run_on(
    alloc: Global,
    words: &[String],
    world: &mut MemorySource,
    failing: Failing,
) -> Result<Ended, AllocError> {
    let mut uploads = upload_source(alloc, failing.upload_reads)?;
    let mut out = sink(alloc, failing.writes)?;
    let calls = Vec::from_slice(alloc, failing.calls)?;
    run_over(alloc, words, world, &mut uploads, &mut out, calls)
}

// A run on the small world, without uploads and on an empty disk.
fn run(alloc: Global, failing: Failing, ticks: &str) -> Result<Ended, AllocError> {
    let words = words(alloc, ticks)?;
    let mut world = world_source(alloc, failing.reads)?;
    run_on(alloc, &words, &mut world, failing)
}

// How a run of one tick ends, and how much it prints and leaves on the disk.
fn end_of(alloc: Global, failing: Failing) -> Result<(Status, usize, usize), AllocError> {
    let ended = run(alloc, failing, "1")?;
    Ok((ended.status, ended.printed.len(), ended.journal.len()))
}

#[test]
fn a_failing_first_call_is_named(rt: HostRuntime) -> Result<(), Fail> {
    let alloc = rt.alloc();
    let reads = Failing {
        reads: &[0],
        ..NOTHING
    };
    assert!(rt; end_of(alloc, reads)? == (Status::ReadFault, 0, 0));
    let upload_reads = Failing {
        upload_reads: &[0],
        ..NOTHING
    };
    assert!(rt; end_of(alloc, upload_reads)? == (Status::ReadFault, 0, 0));
    let (status, printed, left) = end_of(
        alloc,
        Failing {
            writes: &[0],
            ..NOTHING
        },
    )?;
    assert!(rt; (status, printed) == (Status::WriteFault, 0));
    assert!(rt; left > 0);
    let (status, printed, _left) = end_of(
        alloc,
        Failing {
            calls: &[0],
            ..NOTHING
        },
    )?;
    assert!(rt; (status, printed) == (Status::DiskFault, 0));
    Ok(())
}

#[test]
fn a_failing_later_write_leaves_the_ticks_before(rt: HostRuntime) -> Result<(), Fail> {
    let alloc = rt.alloc();
    let whole = run(alloc, NOTHING, "1")?;
    let writes = Failing {
        writes: &[1],
        ..NOTHING
    };
    let ended = run(alloc, writes, "2")?;
    assert!(rt; (ended.status, ended.printed.as_slice()) == (Status::WriteFault, START));
    assert!(rt; ended.journal.as_slice() == whole.journal.as_slice());
    Ok(())
}

// How a run of two ticks ends on a disk of which a call fails, and how much it prints.
fn end_at(alloc: Global, call: u64) -> Result<(Status, usize), AllocError> {
    let calls = Failing {
        calls: &[call],
        ..NOTHING
    };
    let ended = run(alloc, calls, "2")?;
    Ok((ended.status, ended.printed.len()))
}

// The calls of the disk are its length twice; a write and a sync of the closed gate, of the world's frame
// and of its gate; and in each tick a write and a sync of the frame and of its gate.
#[test]
fn a_failing_later_call_of_the_disk_ends_the_lines(rt: HostRuntime) -> Result<(), Fail> {
    for (call, printed) in [
        (1_u64, 0_usize),
        (2, 0),
        (5, 0),
        (7, 0),
        (8, START.len()),
        (11, START.len()),
        (12, TICK_1.len()),
        (15, TICK_1.len()),
    ] {
        assert!(rt; end_at(rt.alloc(), call)? == (Status::DiskFault, printed));
    }
    Ok(())
}

// The words of a check.
fn check_words(alloc: Global) -> Result<Vec<String>, AllocError> {
    let mut words = Vec::new(alloc);
    for word in ["check", "m.wasm"] {
        words.push(String::from_str(alloc, word)?)?;
    }
    Ok(words)
}

// A module of 8 bytes, of which these reads fail.
fn module_source(alloc: Global, reads: &[u64]) -> Result<MemorySource, AllocError> {
    let opening = OPENING.to_vec(alloc)?;
    Ok(MemorySource::new(opening, Vec::from_slice(alloc, reads)?))
}

// A check of this module. Answers whether anything was printed, too.
fn check_of(
    alloc: Global,
    words: &[String],
    input: &mut MemorySource,
    out: &mut MemorySink,
) -> (Status, bool) {
    let mut disk = MemoryDisk::new(Vec::new(alloc), Vec::new(alloc), None);
    let status = tool_main(alloc, words, input, out, &mut disk);
    (status, !out.written().is_empty())
}

// The same of the module of 8 bytes. The reads and writes of these numbers fail.
fn check(alloc: Global, reads: &[u64], writes: &[u64]) -> Result<(Status, bool), AllocError> {
    let words = check_words(alloc)?;
    let mut input = module_source(alloc, reads)?;
    let mut out = sink(alloc, writes)?;
    Ok(check_of(alloc, &words, &mut input, &mut out))
}

#[test]
fn a_failing_call_of_a_check_is_named(rt: HostRuntime) -> Result<(), Fail> {
    let alloc = rt.alloc();
    // The second read finds the end.
    for call in [0_u64, 1] {
        assert!(rt; check(alloc, &[call], &[])? == (Status::ReadFault, false));
    }
    assert!(rt; check(alloc, &[], &[0])? == (Status::WriteFault, false));
    assert!(rt; check(alloc, &[], &[])? == (Status::Refused(Refusal::NoLoop), true));
    Ok(())
}

// A disk that sees whether each write is followed by a sync before anything else is written.
#[derive(Drop)]
struct Watched<D> {
    inner: D,
    waits: bool,
    late: bool,
    syncs: u64,
}

impl<D: Disk> Disk for Watched<D> {
    ghost seen = { λ w. D.seen w.inner };

    ghost moments = { λ w. D.moments w.inner };

    ghost faults = { λ w. D.faults w.inner };

    ghost left_now = { λ w. D.left_now w.inner };

    fn len(&mut self) -> Result<u64, Failed> {
        self.inner.len()
    }

    fn read(&mut self, at: u64, buf: &mut [u8]) -> Result<usize, Failed> {
        self.inner.read(at, buf)
    }

    fn write_at(&mut self, at: u64, bytes: &[u8]) -> Result<(), Failed> {
        self.late = self.late || self.waits;
        self.waits = true;
        self.inner.write_at(at, bytes)
    }

    fn cut(&mut self, len: u64) -> Result<(), Failed> {
        self.inner.cut(len)
    }

    fn sync(&mut self) -> Result<(), Failed> {
        self.waits = false;
        self.syncs = self.syncs.saturating_add(1);
        self.inner.sync()
    }
}

// How a run on this world ends, how many syncs its disk sees, and whether one came late or never.
fn syncs_on(
    alloc: Global,
    words: &[String],
    world: &mut MemorySource,
) -> (Status, u64, bool, bool) {
    let mut uploads = MemorySource::new(Vec::new(alloc), Vec::new(alloc));
    let mut out = MemorySink::new(alloc, Vec::new(alloc));
    let mut disk = Watched {
        inner: MemoryDisk::new(Vec::new(alloc), Vec::new(alloc), None),
        waits: false,
        late: false,
        syncs: 0,
    };
    let status = run_alone(alloc, words, world, &mut uploads, &mut out, &mut disk);
    (status, disk.syncs, disk.late, disk.waits)
}

// The same of a run of two ticks on the small world.
fn syncs(alloc: Global) -> Result<(Status, u64, bool, bool), AllocError> {
    let words = words(alloc, "2")?;
    let mut world = world_source(alloc, &[])?;
    Ok(syncs_on(alloc, &words, &mut world))
}

// The syncs are three for the world, the closed gate among them, and two for each tick.
#[test]
fn each_frame_is_synced(rt: HostRuntime) -> Result<(), Fail> {
    assert!(rt; syncs(rt.alloc())? == (Status::Done, 7, false, false));
    Ok(())
}
