// The commands, and the files that they are run over.
ghost use Rattle.std.specs.Prelude.{◌≡◌, ◌≢◌, ◌≤◌, ◌⊎◌, map, string_bytes};
ghost use Rattle.command_words.specs.Words.{AreOfTool, AreRun, AreRunBy, AreServe};
ghost use Rattle.world_run.specs.Runs.{IsPastWords};

use crate::ended::{Ended, with_file, with_output};
use command_words::{Command, WordsFault, read_words};
use run_status::Status;
use shared_run::run_shared;
use shared_serve::serve_shared;
use socket_links::{SleepPace, SocketDoor};
use std::io::{IsTerminal, Stderr};
use std::net::{Net, TcpListener, TcpStream};
use std::sync::Wait;
use std::thread::Threads;
use std::time::{Clock, Duration};
use world_io::{
    Disk, FileDisk, FileSource, MemoryDisk, OpenGate, ProgressSink, Source, SteadySource,
    StreamSink, write_all,
};
use world_run::run_alone;
use world_tools::tool_main;

// How long a read or a write of a link waits at most, in seconds.
const PATIENCE: u64 = 60;

// How long a link lives at most, in seconds.
const LIFE: u64 = 3600;

/// How a call ends whose words could not be read.
pub fn refused_words(fault: WordsFault) -> Status
    ensures usage { fault ≡ WordsFault.Usage → result ≡ Status.Usage }
    ensures memory { fault ≡ WordsFault.Memory → result ≡ Status.Memory }
{
    match fault {
        WordsFault::Usage => Status::Usage,
        WordsFault::Memory => Status::Memory,
    }
}

/// Runs the command that the words say, over the files that they name, with standard output as its sink. A
/// run by several workers starts their threads.
///
/// A journal is made where a run finds none. A file that cannot be opened fails at its first call, as a
/// source or a disk that fails.
pub fn run_command<
    R: Threads + Wait + Net<Listener = TcpListener, Stream = TcpStream> + Clock + Sync,
>(rt: &HostRuntime, threads: &R, words: &[String]) -> Ended
    ensures usage { result.status ≡ Status.Usage → (AreRun (map string_bytes words.now) → ⊥)
        × (AreServe (map string_bytes words.now) → ⊥) × (AreOfTool (map string_bytes words.now) → ⊥) }
    ensures words { IsPastWords result.status → AreRun (map string_bytes words.now)
        ⊎ AreServe (map string_bytes words.now) ⊎ AreOfTool (map string_bytes words.now) }
{
    match read_words(rt.alloc(), words) {
        Ok(
            Command::Run {
                world,
                uploads,
                journal,
                ticks: _,
                workers,
            },
        ) => run_files(rt, threads, words, workers, world, uploads, journal),
        Ok(
            Command::Serve {
                world,
                journal,
                ticks: _,
                links: _,
                port,
                workers: _,
                pace,
            },
        ) => serve_files(rt, threads, words, world, journal, port, pace),
        Ok(Command::Check { module }) => check_file(rt, words, module),
        Ok(Command::Gen { .. } | Command::Demo { .. }) => {
            use_tool(rt, words, &mut no_source(rt), &mut no_disk(rt))
        }
        Ok(Command::Show { journal, tick: _ }) => read_journal(rt, words, journal),
        Ok(Command::Replay { journal }) => read_journal(rt, words, journal),
        Err(fault) => Ended {
            status: refused_words(fault),
            trouble: None,
        },
    }
}

// Checks the module of a file.
fn check_file(rt: &HostRuntime, words: &[String], path: String) -> Ended
    ensures usage { result.status ≡ Status.Usage → AreOfTool (map string_bytes words.now) → ⊥ }
    ensures words { IsPastWords result.status → AreOfTool (map string_bytes words.now) }
{
    let mut module = FileSource::open(rt, path.as_str());
    let ended = use_tool(rt, words, &mut module, &mut no_disk(rt));
    if ended.status != Status::ReadFault {
        return ended;
    }
    Ended {
        status: ended.status,
        trouble: with_file(path, module.trouble()),
    }
}

// Runs ticks by so many workers over the files of a world, of an upload stream and of a journal, which is
// made where it is not there.
fn run_files<R: Threads + Clock + Sync>(
    rt: &HostRuntime,
    threads: &R,
    words: &[String],
    workers: u32,
    world: String,
    uploads: String,
    journal: String,
) -> Ended
    requires words { AreRunBy workers (map string_bytes words.now) }
    requires few { workers ≤ 16 }
    ensures { result.status ≢ Status.Usage }
{
    let mut first = FileSource::open(rt, world.as_str());
    let mut stream = FileSource::open(rt, uploads.as_str());
    let mut out = ProgressSink::over(rt.stdout(), watched(rt), threads);
    let mut disk = FileDisk::open_or_make(rt, journal.as_str());
    let status = if workers == 1 {
        run_alone(
            rt.alloc(),
            words,
            &mut first,
            &mut stream,
            &mut out,
            &mut disk,
        )
    } else {
        run_shared(
            threads,
            rt.alloc(),
            words,
            &mut first,
            &mut stream,
            &mut out,
            &mut disk,
            &OpenGate,
        )
    };
    out.finish();
    let trouble = match status {
        Status::ReadFault => match with_file(world, first.trouble()) {
            Some(trouble) => Some(trouble),
            None => with_file(uploads, stream.trouble()),
        },
        Status::WriteFault => with_output(out.trouble()),
        Status::DiskFault => with_file(journal, disk.trouble()),
        _ => None,
    };
    Ended { status, trouble }
}

// Standard error, where it is a terminal on which the lines of a run don't stand.
fn watched(rt: &HostRuntime) -> Option<Stderr> {
    if rt.stderr().is_terminal() && !rt.stdout().is_terminal() {
        Some(rt.stderr())
    } else {
        None
    }
}

// Serves the world of a file at a port of this machine, over the file of a journal, which is made where it is
// not there. A line on standard error says where it listens, or that the port can't be had.
fn serve_files<R: Threads + Wait + Net<Listener = TcpListener, Stream = TcpStream> + Clock + Sync>(
    rt: &HostRuntime,
    threads: &R,
    words: &[String],
    world: String,
    journal: String,
    port: u16,
    pace: u32,
) -> Ended
    requires { AreServe (map string_bytes words.now) }
    ensures { result.status ≢ Status.Usage }
{
    let mut first = FileSource::open(rt, world.as_str());
    let mut disk = FileDisk::open_or_make(rt, journal.as_str());
    let door = SocketDoor::open(
        threads,
        port,
        Duration::from_secs(PATIENCE),
        Duration::from_secs(LIFE),
    );
    tell_door(rt, port, door.is_open());
    let status = serve_shared(
        threads,
        rt.alloc(),
        words,
        &mut first,
        &mut disk,
        &door,
        &mut SleepPace::new(threads, u64::from(pace)),
    );
    let trouble = match status {
        Status::ReadFault => with_file(world, first.trouble()),
        Status::DiskFault => with_file(journal, disk.trouble()),
        _ => None,
    };
    Ended { status, trouble }
}

// Says on standard error where the door is, or that there is none.
fn tell_door(rt: &HostRuntime, port: u16, is_open: bool) {
    let line = if is_open {
        format!(in rt.alloc(); "serving at 127.0.0.1:{port}\n")
    } else {
        format!(in rt.alloc(); "port {port} can't be had: serving no links\n")
    };
    if let Ok(line) = line {
        let _ = write_all(&mut StreamSink::over(rt.stderr()), line.as_bytes());
    }
}

// Shows a tick of the journal of a file, or rules its ticks again.
fn read_journal(rt: &HostRuntime, words: &[String], path: String) -> Ended
    ensures usage { result.status ≡ Status.Usage → AreOfTool (map string_bytes words.now) → ⊥ }
    ensures words { IsPastWords result.status → AreOfTool (map string_bytes words.now) }
{
    let mut journal = FileDisk::open(rt, path.as_str());
    let ended = use_tool(rt, words, &mut no_source(rt), &mut journal);
    if ended.status != Status::DiskFault {
        return ended;
    }
    Ended {
        status: ended.status,
        trouble: with_file(path, journal.trouble()),
    }
}

// Checks the module of a source, makes a part of a world or runs one in memory, or shows a tick of the
// journal on a disk or rules its ticks again.
fn use_tool<S: Source, D: Disk>(
    rt: &HostRuntime,
    words: &[String],
    input: &mut S,
    disk: &mut D,
) -> Ended
    ensures usage { result.status ≡ Status.Usage → AreOfTool (map string_bytes words.now) → ⊥ }
    ensures words { IsPastWords result.status → AreOfTool (map string_bytes words.now) }
{
    let mut out = StreamSink::over(rt.stdout());
    let status = tool_main(rt.alloc(), words, input, &mut out, disk);
    let trouble = match status {
        Status::WriteFault => with_output(out.trouble()),
        _ => None,
    };
    Ended { status, trouble }
}

// A source for a command that reads none: it has no byte.
fn no_source(rt: &HostRuntime) -> SteadySource {
    SteadySource::new(Vec::new(rt.alloc()))
}

// A disk for a command that uses none: it has no byte.
fn no_disk(rt: &HostRuntime) -> MemoryDisk {
    MemoryDisk::new(Vec::new(rt.alloc()), Vec::new(rt.alloc()), None)
}
