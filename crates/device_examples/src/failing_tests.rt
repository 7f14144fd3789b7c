// A run of two ticks in which a creep harvests and hands over, where a read of an input or a write of lines
// fails.
use std::alloc::{AllocError, Global};
use std::test::Fail;
use world_io::{MemoryDisk, MemorySink, MemorySource};
use world_run::run_alone;
use world_tools::Status;

// The stream in which player 1 uploads for tick 0 a module that lets creep 4 harvest from 2 and hand over to
// 3.
const STREAM: [u8; 123] = [
    0, 0, 0, 0, 0, 0, 0, 0, 1, 0, 0, 0, 107, 0, 0, 0, 0, 97, 115, 109, 1, 0, 0, 0, 1, 21, 4, 96, 0,
    0, 96, 1, 127, 0, 96, 3, 126, 126, 127, 1, 127, 96, 2, 126, 126, 1, 127, 2, 38, 2, 7, 115, 99,
    114, 101, 101, 112, 115, 8, 116, 114, 97, 110, 115, 102, 101, 114, 0, 2, 7, 115, 99, 114, 101,
    101, 112, 115, 7, 104, 97, 114, 118, 101, 115, 116, 0, 3, 3, 2, 1, 0, 7, 8, 1, 4, 108, 111,
    111, 112, 0, 2, 10, 20, 1, 18, 0, 66, 4, 66, 2, 16, 1, 26, 66, 4, 66, 3, 65, 0, 16, 0, 26, 11,
];

const LINES: &[u8] = b"start tick 0 rooms 1 objects 4 players 1\n\
    upload player 1 accepted\n\
    player 1 finished 9\n\
    tick 1 objects 4 intents 1 energy 3101\n\
    player 1 finished 9\n\
    tick 2 objects 4 intents 2 energy 3102\n";

// What fails: the call of this number of the world's source, of that of the uploads, or of the sink.
#[derive(Clone, Copy)]
enum Failing {
    World(u64),
    Uploads(u64),
    Lines(u64),
}

// A room with a controller, a source, a spawn and a creep between them, all of player 1 but the source.
fn room(alloc: Global) -> Result<String, AllocError> {
    // (tiles of plain ground: a zero that is padded to so many, with walls at the corners)
    let plain = 0;
    let ground = format!(in alloc; "1{plain:048}1{plain:02400}1{plain:048}1")?;
    let controller =
        "{\"id\":1,\"kind\":\"controller\",\"x\":5,\"y\":5,\"owner\":1,\"extra\":1,\"timer\":20000}";
    let source = "{\"id\":2,\"kind\":\"source\",\"x\":10,\"y\":10,\"energy\":3000}";
    let spawn = "{\"id\":3,\"kind\":\"spawn\",\"x\":12,\"y\":10,\"owner\":1,\"energy\":100}";
    let creep = "{\"id\":4,\"kind\":\"creep\",\"x\":11,\"y\":10,\"owner\":1";
    let parts = "\"body\":[\"work\",\"carry\",\"move\"],\"timer\":1500}";
    let objects = format!(in alloc; "{controller},{source},{spawn},{creep},{parts}")?;
    format!(in alloc;
        "{{\"name\":\"E0S0\",\"terrain\":\"{ground}\",\"next\":5,\"objects\":[{objects}]}}"
    )
}

// The file of that world.
fn world(alloc: Global) -> Result<Vec<u8>, AllocError> {
    let room = room(alloc)?;
    let player = "{\"player\":1,\"limit\":20}";
    let text = format!(in alloc;
        "{{\"version\":1,\"tick\":0,\"rooms\":[{room}],\"players\":[{player}]}}"
    )?;
    Ok(text.into_bytes())
}

fn words(alloc: Global) -> Result<Vec<String>, AllocError> {
    let mut words = Vec::new(alloc);
    for word in ["run", "w.json", "u.bin", "j.bin", "--ticks", "2"] {
        words.push(String::from_str(alloc, word)?)?;
    }
    Ok(words)
}

// How a run over these devices ends, whether what was printed are the first of the lines, how many bytes that
// are, and how many the journal has.
fn end_over(
    alloc: Global,
    words: &[String],
    world: &mut MemorySource,
    uploads: &mut MemorySource,
    out: &mut MemorySink,
) -> (Status, bool, usize, usize) {
    let mut disk = MemoryDisk::new(Vec::new(alloc), Vec::new(alloc), None);
    let status = run_alone(alloc, words, world, uploads, out, &mut disk);
    let printed = out.written();
    (
        status,
        LINES.starts_with(printed),
        printed.len(),
        disk.bytes().len(),
    )
}

// The same of the run, of which this call fails.
fn end_where(alloc: Global, failing: Failing) -> Result<(Status, bool, usize, usize), AllocError> {
    let mut reads = Vec::new(alloc);
    let mut upload_reads = Vec::new(alloc);
    let mut writes = Vec::new(alloc);
    match failing {
        Failing::World(call) => reads.push(call)?,
        Failing::Uploads(call) => upload_reads.push(call)?,
        Failing::Lines(call) => writes.push(call)?,
    }
    let mut world = MemorySource::new(world(alloc)?, reads);
    let mut uploads = MemorySource::new(STREAM.to_vec(alloc)?, upload_reads);
    let mut out = MemorySink::new(alloc, writes);
    let words = words(alloc)?;
    Ok(end_over(alloc, &words, &mut world, &mut uploads, &mut out))
}

// The bytes of the journal with the world alone, and with one tick and two.
const WORLD: usize = 2789;

const ONE: usize = 3230;

const TWO: usize = 3581;

// Of each source a second read finds the end. The writes are the opening line, the line of the upload, the
// others of the first tick, and those of the second.
#[test]
fn each_call_that_fails_is_answered(rt: HostRuntime) -> Result<(), Fail> {
    for (failing, end) in [
        (
            Failing::World(0),
            (Status::ReadFault, true, 0_usize, 0_usize),
        ),
        (Failing::World(1), (Status::ReadFault, true, 0, 0)),
        (Failing::World(2), (Status::Done, true, LINES.len(), TWO)),
        (Failing::Uploads(0), (Status::ReadFault, true, 0, 0)),
        (Failing::Uploads(1), (Status::ReadFault, true, 0, 0)),
        (Failing::Uploads(2), (Status::Done, true, LINES.len(), TWO)),
        (Failing::Lines(0), (Status::WriteFault, true, 0, WORLD)),
        (Failing::Lines(1), (Status::WriteFault, true, 41, ONE)),
        (Failing::Lines(2), (Status::WriteFault, true, 66, ONE)),
        (Failing::Lines(3), (Status::WriteFault, true, 125, TWO)),
        (Failing::Lines(4), (Status::Done, true, LINES.len(), TWO)),
    ] {
        assert!(rt; end_where(rt.alloc(), failing)? == end);
    }
    Ok(())
}
