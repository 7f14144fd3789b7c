// A sink over standard output that tells on a terminal how far a run is.
ghost use Rattle.std.specs.Io.KnownBytes.{WriteAppends};
ghost use Rattle.std.specs.Io.{WritesAtMost};
ghost use Rattle.std.specs.Prelude.{◌≡◌, ◌<◌, length, None, IfOk};
ghost use Rattle.world_io.specs.Causes.{HasCause};

use crate::sink::Sink;
use crate::source::Failed;
use crate::stream::{StreamSink, write_some};
use crate::tick_line::TickLine;
use crate::trouble::Trouble;
use itoa::Buffer;
use std::io::Write;
use std::time::{Clock, Duration};

// How long a tick that is told stands at least, in milliseconds.
const PAUSE: u64 = 1000;

/// A sink over a stream of lines, as standard output is, which tells the tick of the last line `tick N ..`
/// on a terminal, at most once a second, each over the one before. What can't be told is left out. With no
/// terminal it is as a [`StreamSink`].
#[derive(Drop)]
pub struct ProgressSink<W, E, C> {
    out: StreamSink<W>,
    terminal: Option<E>,
    clock: C,
    told: Option<Duration>,
    is_told: bool,
    line: TickLine,
}

impl<W, E, C: Clock> ProgressSink<W, E, C> {
    /// A sink over this writer. Nothing is told in the first second.
    pub fn over(stream: W, terminal: Option<E>, clock: C) -> Self
        ensures { result.out.faults.count ≡ 0 }
    {
        let told = clock.monotonic().ok();
        ProgressSink {
            out: StreamSink::over(stream),
            terminal,
            clock,
            told,
            is_told: false,
            line: TickLine::NONE,
        }
    }

    /// Its first failure, to be written.
    pub fn trouble(&self) -> Option<Trouble>
        ensures { result ≡ self.now.out.first }
    {
        self.out.trouble()
    }
}

impl<W, E: Write, C: Clock> ProgressSink<W, E, C> {
    /// Takes away from the terminal what was told last, where a tick was.
    pub fn finish(&mut self)
        ensures { self.new.out ≡ self.old.out }
    {
        if !self.is_told {
            return;
        }
        if let Some(terminal) = &mut self.terminal {
            let _ = write_some(terminal, b"\r\x1b[K");
        }
        self.is_told = false;
    }

    // Tells the tick of the last line, where there is one and the last that was told has stood long enough.
    fn tell(&mut self)
        ensures { self.new.out ≡ self.old.out }
    {
        let Some(tick) = self.line.tick() else {
            return;
        };
        let Some(terminal) = &mut self.terminal else {
            return;
        };
        let Ok(now) = self.clock.monotonic() else {
            return;
        };
        if let Some(told) = self.told
            && now.saturating_sub(told) < Duration::from_millis(PAUSE)
        {
            return;
        }
        self.told = Some(now);
        self.is_told = true;
        let mut digits = Buffer::new();
        let _ = write_some(terminal, b"\rtick ");
        let _ = write_some(terminal, digits.format(tick).as_bytes());
    }
}

impl<W: Write, E: Write, C: Clock> Sink for ProgressSink<W, E, C> {
    ghost written = { λ _. None };

    ghost faults = { λ s. s.out.faults.count };

    fn write(&mut self, piece: &[u8]) -> Result<usize, Failed>
        requires { 0 < length piece.now }
        ensures bound { WritesAtMost result piece.now }
        ensures some { IfOk result (λ n. 0 < n) }
        ensures bytes { WriteAppends None None result piece.now }
        ensures cause { HasCause self.old.out.faults.count self.new.out.faults.count result }
        ensures through { WriteAppends (W.contents self.old.out.stream)
            (W.contents self.new.out.stream) result piece.now }
    {
        let count = self.out.write(piece)?;
        if self.terminal.is_some() {
            self.line.take(&piece[..count]);
            self.tell();
        }
        Ok(count)
    }
}
