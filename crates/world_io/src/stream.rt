// A sink over a stream, as standard output.
ghost use Rattle.std.specs.Io.KnownBytes.{WriteAppends, Appends, Keeps};
ghost use Rattle.std.specs.Io.{WritesAtMost};
ghost use Rattle.std.specs.Prelude.{◌≡◌, ◌<◌, ◌≤◌, length, take, None, IsSome, IsErr, IfOk, MatchResult};
ghost use Rattle.world_io.specs.Causes.{HasCause};

use crate::count::FaultCount;
use crate::sink::Sink;
use crate::source::Failed;
use crate::trouble::{Deed, Trouble, note};
use std::io::{Error, ErrorKind, Result as SystemResult, Write};

/// A sink over a writer that keeps nothing back, as standard output and standard error are.
#[derive(Drop)]
pub struct StreamSink<W> {
    stream: W,
    faults: FaultCount,
    first: Option<Trouble>,
}

impl<W> StreamSink<W> {
    /// A sink over this writer.
    pub fn over(stream: W) -> Self
        ensures { result.faults.count ≡ 0 }
    {
        StreamSink {
            stream,
            faults: FaultCount::ZERO,
            first: None,
        }
    }

    /// Its first failure, to be written.
    pub fn trouble(&self) -> Option<Trouble>
        ensures { result ≡ self.now.first }
    {
        self.first
    }
}

impl<W: Write> Sink for StreamSink<W> {
    ghost written = { λ _. None };

    ghost faults = { λ s. s.faults.count };

    /// What it takes went to the stream.
    fn write(&mut self, piece: &[u8]) -> Result<usize, Failed>
        requires { 0 < length piece.now }
        ensures bound { WritesAtMost result piece.now }
        ensures some { IfOk result (λ n. 0 < n) }
        ensures bytes { WriteAppends None None result piece.now }
        ensures cause { HasCause self.old.faults.count self.new.faults.count result }
        ensures through { WriteAppends (W.contents self.old.stream)
            (W.contents self.new.stream) result piece.now }
        ensures told { IsErr result → IsSome self.new.first }
    {
        match write_some(&mut self.stream, piece) {
            Ok(count) => Ok(count),
            Err(reason) => {
                note(&mut self.first, Deed::Write, reason);
                Err(self.faults.raise())
            }
        }
    }
}

// Writes the front of the piece, again where a signal cuts in. A writer that takes nothing fails.
pub(crate) fn write_some<W: Write>(writer: &mut W, piece: &[u8]) -> SystemResult<usize>
    ensures some { IfOk result (λ n. 0 < n) }
    ensures bound { IfOk result (λ n. n ≤ length piece.now) }
    ensures bytes { MatchResult result
        (λ n. Appends (W.contents writer.old) (W.contents writer.new) (take n piece.now))
        (λ _. Keeps (W.contents writer.old) (W.contents writer.new)) }
{
    'again: for _ in 0..u64::MAX {
        match writer.write(piece) {
            Ok(0) => return Err(Error::from(ErrorKind::WriteZero)),
            Ok(count) => return Ok(count),
            Err(error) if error.kind() == ErrorKind::Interrupted => {}
            Err(error) => return Err(error),
        }
    }
    Err(Error::from(ErrorKind::Interrupted))
}
