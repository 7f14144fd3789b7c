// A source, a sink and a disk over files of the system.
ghost use Rattle.std.specs.Prelude.{◌≡◌, ℕ, ◌<◌, ◌≤◌, ◌+◌, ◌^◌, [], length, take, None, IsNone, IsSome, IsErr};
ghost use Rattle.std.specs.Prelude.{IfOk, OnOk, MatchResult, refl};
ghost use Rattle.std.specs.Io.{ReadsAtMost, WritesAtMost};
ghost use Rattle.std.specs.Io.KnownBytes.{ReadConsumes, WriteAppends, Keeps, Consumes, IsAtEnd};
ghost use Rattle.world_io.specs.Causes.{HasCause};
ghost use Rattle.world_io.specs.Disk.{LengthIs, ReadsAt, WritesAt, CutTo, Same, TellsAlike};

use crate::count::FaultCount;
use crate::disk::{Disk, MOST_BYTES};
use crate::sink::Sink;
use crate::source::{Failed, Source};
use crate::stream::write_some;
use crate::trouble::{Deed, Trouble, note};
use std::fs::{File, OpenOptions, TryLockError};
use std::io::{Error, ErrorKind, Read, Result as SystemResult};
use std::os::unix::fs::FileExt;
use std::path::Path;
use std::rt::Files;

/// A source over a file. Where the file could not be opened, each call fails.
#[derive(Drop)]
pub struct FileSource {
    file: Option<File>,
    faults: FaultCount,
    first: Option<Trouble>,
}

impl FileSource {
    /// Opens a file that is there, for reading.
    pub fn open<R: Files<File = File>>(files: &R, path: &str) -> Self
        ensures none { result.faults.count ≡ 0 }
        ensures told { IsNone result.file → IsSome result.first }
    {
        let (file, first) = opened(File::open(files, path));
        FileSource {
            file,
            faults: FaultCount::ZERO,
            first,
        }
    }

    /// Its first failure, to be opened or read.
    pub fn trouble(&self) -> Option<Trouble>
        ensures { result ≡ self.now.first }
    {
        self.first
    }
}

impl Source for FileSource {
    ghost left = { λ _. None };

    ghost faults = { λ s. s.faults.count };

    fn read(&mut self, buf: &mut [u8]) -> Result<usize, Failed>
        requires { 0 < length buf.old }
        ensures bound { ReadsAtMost result buf.new }
        ensures bytes { ReadConsumes None None result buf.new }
        ensures cause { HasCause self.old.faults.count self.new.faults.count result }
        ensures closed { IsNone self.old.file → IsErr result }
        ensures stays_closed { IsNone self.old.file → IsNone self.new.file }
        ensures told { (IsNone self.old.file → IsSome self.old.first)
            → IsErr result → IsSome self.new.first }
    {
        let Some(file) = &mut self.file else {
            return Err(self.faults.raise());
        };
        match read_some(file, buf) {
            Ok(count) => Ok(count),
            Err(reason) => {
                note(&mut self.first, Deed::Read, reason);
                Err(self.faults.raise())
            }
        }
    }
}

/// A sink over a file that it makes or empties. Where that failed, each call fails.
#[derive(Drop)]
pub struct FileSink {
    file: Option<File>,
    faults: FaultCount,
    first: Option<Trouble>,
}

impl FileSink {
    /// Makes a file, or empties the one that is there, for writing.
    pub fn create<R: Files<File = File>>(files: &R, path: &str) -> Self
        ensures none { result.faults.count ≡ 0 }
        ensures told { IsNone result.file → IsSome result.first }
    {
        let (file, first) = opened(File::create(files, path));
        FileSink {
            file,
            faults: FaultCount::ZERO,
            first,
        }
    }

    /// Its first failure, to be made or written.
    pub fn trouble(&self) -> Option<Trouble>
        ensures { result ≡ self.now.first }
    {
        self.first
    }
}

impl Sink for FileSink {
    ghost written = { λ _. None };

    ghost faults = { λ s. s.faults.count };

    fn write(&mut self, piece: &[u8]) -> Result<usize, Failed>
        requires { 0 < length piece.now }
        ensures bound { WritesAtMost result piece.now }
        ensures some { IfOk result (λ n. 0 < n) }
        ensures bytes { WriteAppends None None result piece.now }
        ensures cause { HasCause self.old.faults.count self.new.faults.count result }
        ensures closed { IsNone self.old.file → IsErr result }
        ensures stays_closed { IsNone self.old.file → IsNone self.new.file }
        ensures told { (IsNone self.old.file → IsSome self.old.first)
            → IsErr result → IsSome self.new.first }
    {
        let Some(file) = &mut self.file else {
            return Err(self.faults.raise());
        };
        match write_some(file, piece) {
            Ok(count) => Ok(count),
            Err(reason) => {
                note(&mut self.first, Deed::Write, reason);
                Err(self.faults.raise())
            }
        }
    }
}

/// A disk over a file. Where the file could not be opened, each call fails.
#[derive(Drop)]
pub struct FileDisk {
    file: Option<File>,
    faults: FaultCount,
    first: Option<Trouble>,
}

impl FileDisk {
    /// Opens a file that is there, for reading: writes, cuts and syncs may fail.
    pub fn open<R: Files<File = File>>(files: &R, path: &str) -> Self
        ensures none { result.faults.count ≡ 0 }
        ensures told { IsNone result.file → IsSome result.first }
    {
        let (file, first) = opened(File::open(files, path));
        FileDisk {
            file,
            faults: FaultCount::ZERO,
            first,
        }
    }

    /// Opens a file for reading and writing, and makes an empty one where there is none. No other process
    /// that opens it so has it at the same time, and a crash then leaves its name and the bytes that a read
    /// gives. Where the system fails to see to that, each call fails. The file is let go when it is dropped,
    /// and when the process ends, however it ends.
    pub fn open_or_make<R: Files<File = File>>(files: &R, path: &str) -> Self
        ensures none { result.faults.count ≡ 0 }
        ensures told { IsNone result.file → IsSome result.first }
    {
        let (file, first) = match open_alone(files, path) {
            Ok(file) => (Some(file), None),
            Err(trouble) => (None, Some(trouble)),
        };
        FileDisk {
            file,
            faults: FaultCount::ZERO,
            first,
        }
    }

    /// Its first failure: to be opened, to be nobody else's, to be read, or to be written, cut or synced.
    pub fn trouble(&self) -> Option<Trouble>
        ensures { result ≡ self.now.first }
    {
        self.first
    }
}

// A file that was opened, or the trouble with it.
fn opened(file: SystemResult<File>) -> (Option<File>, Option<Trouble>)
    ensures { IsNone result.0 → IsSome result.1 }
{
    match file {
        Ok(file) => (Some(file), None),
        Err(reason) => (
            None,
            Some(Trouble {
                deed: Deed::Open,
                reason,
            }),
        ),
    }
}

// Opens a file for reading and writing, which is made where there is none, locks it, and syncs its name and
// what an earlier process may have left in it without a sync.
fn open_alone<R: Files<File = File>>(files: &R, path: &str) -> Result<File, Trouble> {
    let file = OpenOptions::new()
        .read(true)
        .write(true)
        .create(true)
        .open(files, path)
        .map_err(|reason| at(Deed::Open, reason))?;
    file.try_lock().map_err(unlocked)?;
    sync_name(files, path).map_err(|reason| at(Deed::Write, reason))?;
    file.sync_data().map_err(|reason| at(Deed::Write, reason))?;
    Ok(file)
}

fn at(deed: Deed, reason: Error) -> Trouble {
    Trouble { deed, reason }
}

// The trouble with a file that is not locked.
fn unlocked(error: TryLockError) -> Trouble {
    match error {
        TryLockError::Error(reason) => at(Deed::Open, reason),
        TryLockError::WouldBlock => at(Deed::Lock, Error::from(ErrorKind::WouldBlock)),
    }
}

// Syncs the folder of a file, so that a crash leaves the file's name. A folder that may not be read, and one
// of a file system that syncs none, is left as it is.
fn sync_name<R: Files<File = File>>(files: &R, path: &str) -> SystemResult<()> {
    let Some(folder) = Path::new(path).parent() else {
        return Ok(());
    };
    let folder = if folder.as_str().is_empty() {
        "."
    } else {
        folder.as_str()
    };
    let Ok(folder) = File::open(files, folder) else {
        return Ok(());
    };
    match folder.sync_all() {
        Err(error) if error.kind() != ErrorKind::InvalidInput => Err(error),
        _ => Ok(()),
    }
}

impl Disk for FileDisk {
    ghost seen = { λ _. None };

    ghost moments = { λ _. [] };

    ghost faults = { λ d. d.faults.count };

    ghost left_now = { λ _. refl };

    fn len(&mut self) -> Result<u64, Failed>
        ensures told { IfOk result (λ n. LengthIs None n) }
        ensures limit { IfOk result (λ n. n < 2 ^ 62) }
        ensures same { Same None None }
        ensures cause { HasCause self.old.faults.count self.new.faults.count result }
        ensures closed { IsNone self.old.file → IsErr result }
        ensures stays { self.new.file ≡ self.old.file }
        ensures noted { (IsNone self.old.file → IsSome self.old.first)
            → IsErr result → IsSome self.new.first }
    {
        let Some(file) = &self.file else {
            return Err(self.faults.raise());
        };
        match length_of(file) {
            Ok(len) => Ok(len),
            Err(reason) => {
                note(&mut self.first, Deed::Read, reason);
                Err(self.faults.raise())
            }
        }
    }

    fn read(&mut self, at: u64, buf: &mut [u8]) -> Result<usize, Failed>
        ensures bound { ReadsAtMost result buf.new }
        ensures told { IfOk result (λ n. ReadsAt None at (length buf.old) (take n buf.new)) }
        ensures same { Same None None }
        ensures cause { HasCause self.old.faults.count self.new.faults.count result }
        ensures closed { IsNone self.old.file → IsErr result }
        ensures stays { self.new.file ≡ self.old.file }
        ensures noted { (IsNone self.old.file → IsSome self.old.first)
            → IsErr result → IsSome self.new.first }
    {
        let Some(file) = &self.file else {
            return Err(self.faults.raise());
        };
        match read_at(file, at, buf) {
            Ok(count) => Ok(count),
            Err(reason) => {
                note(&mut self.first, Deed::Read, reason);
                Err(self.faults.raise())
            }
        }
    }

    fn write_at(&mut self, at: u64, bytes: &[u8]) -> Result<(), Failed>
        ensures told { OnOk result (WritesAt None at bytes.now None) }
        ensures limit { OnOk result (at + length bytes.now < 2 ^ 62) }
        ensures alike { TellsAlike None None }
        ensures cause { HasCause self.old.faults.count self.new.faults.count result }
        ensures closed { IsNone self.old.file → IsErr result }
        ensures stays { self.new.file ≡ self.old.file }
        ensures noted { (IsNone self.old.file → IsSome self.old.first)
            → IsErr result → IsSome self.new.first }
    {
        let Some(file) = &self.file else {
            return Err(self.faults.raise());
        };
        match write_at(file, at, bytes) {
            Ok(()) => Ok(()),
            Err(reason) => {
                note(&mut self.first, Deed::Write, reason);
                Err(self.faults.raise())
            }
        }
    }

    fn cut(&mut self, len: u64) -> Result<(), Failed>
        ensures told { OnOk result (CutTo None len None) }
        ensures alike { TellsAlike None None }
        ensures cause { HasCause self.old.faults.count self.new.faults.count result }
        ensures closed { IsNone self.old.file → IsErr result }
        ensures stays { self.new.file ≡ self.old.file }
        ensures noted { (IsNone self.old.file → IsSome self.old.first)
            → IsErr result → IsSome self.new.first }
    {
        let Some(file) = &self.file else {
            return Err(self.faults.raise());
        };
        match file.set_len(len) {
            Ok(()) => Ok(()),
            Err(reason) => {
                note(&mut self.first, Deed::Write, reason);
                Err(self.faults.raise())
            }
        }
    }

    fn sync(&mut self) -> Result<(), Failed>
        ensures same { Same None None }
        ensures cause { HasCause self.old.faults.count self.new.faults.count result }
        ensures closed { IsNone self.old.file → IsErr result }
        ensures stays { self.new.file ≡ self.old.file }
        ensures noted { (IsNone self.old.file → IsSome self.old.first)
            → IsErr result → IsSome self.new.first }
    {
        let Some(file) = &self.file else {
            return Err(self.faults.raise());
        };
        match file.sync_data() {
            Ok(()) => Ok(()),
            Err(reason) => {
                note(&mut self.first, Deed::Write, reason);
                Err(self.faults.raise())
            }
        }
    }
}

// Reads the next bytes, again where a signal cuts in.
fn read_some<R: Read>(reader: &mut R, buf: &mut [u8]) -> SystemResult<usize>
    ensures bound { IfOk result (λ n. n ≤ length buf.new) }
    ensures bytes { MatchResult result
        (λ n. Consumes (R.remaining reader.old) (R.remaining reader.new) (take n buf.new))
        (λ _. Keeps (R.remaining reader.old) (R.remaining reader.new)) }
    ensures end { IfOk result (λ n. n ≡ 0 → 0 < length buf.new → IsAtEnd (R.remaining reader.new)) }
{
    'again: for _ in 0..u64::MAX {
        match reader.read(buf) {
            Ok(count) => return Ok(count),
            Err(error) if error.kind() == ErrorKind::Interrupted => {}
            Err(error) => return Err(error),
        }
    }
    Err(Error::from(ErrorKind::Interrupted))
}

// The file's length, which a disk may have.
fn length_of(file: &File) -> SystemResult<u64>
    ensures { IfOk result (λ n. n < 2 ^ 62) }
{
    let len = file.metadata()?.len();
    if len > MOST_BYTES {
        return Err(Error::from(ErrorKind::FileTooLarge));
    }
    Ok(len)
}

// Fills as much of the buffer as there are bytes from the place on, again where a signal cuts in.
fn read_at(file: &File, at: u64, buf: &mut [u8]) -> SystemResult<usize>
    ensures bound { IfOk result (λ n. n ≤ length buf.new) }
{
    let mut filled = 0usize;
    'fill: for _ in 0..u64::MAX {
        let place = at.saturating_add(filled as u64);
        if filled == buf.len() || place > MOST_BYTES {
            return Ok(filled);
        }
        match file.read_at(&mut buf[filled..], place) {
            Ok(0) => return Ok(filled),
            Ok(count) => filled += count,
            Err(error) if error.kind() == ErrorKind::Interrupted => {}
            Err(error) => return Err(error),
        }
    }
    Err(Error::from(ErrorKind::Interrupted))
}

// Writes the bytes, none of them where they would pass the greatest length.
fn write_at(file: &File, at: u64, bytes: &[u8]) -> SystemResult<()>
    ensures limit { OnOk result (at + length bytes.now < 2 ^ 62) }
{
    if at > MOST_BYTES || bytes.len() as u64 > MOST_BYTES - at {
        return Err(Error::from(ErrorKind::FileTooLarge));
    }
    file.write_all_at(bytes, at)
}
