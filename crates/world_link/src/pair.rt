// A link of any source and any sink.
ghost use Rattle.std.specs.Prelude.{◌≡◌, ◌<◌, length, IfOk};
ghost use Rattle.std.specs.Io.{ReadsAtMost, WritesAtMost};
ghost use Rattle.std.specs.Io.KnownBytes.{ReadConsumes, WriteAppends};
ghost use Rattle.world_io.specs.Causes.{HasCause};

use crate::link::Link;
use world_io::{Failed, Sink, Source};

/// A source and a sink beside each other.
#[derive(Drop)]
pub struct PairLink<I, O> {
    pub input: I,
    pub output: O,
}

impl<I: Source, O> Source for PairLink<I, O> {
    ghost left = { λ l. I.left l.input };

    ghost faults = { λ l. I.faults l.input };

    fn read(&mut self, buf: &mut [u8]) -> Result<usize, Failed> {
        self.input.read(buf)
    }
}

impl<I, O: Sink> Sink for PairLink<I, O> {
    ghost written = { λ l. O.written l.output };

    ghost faults = { λ l. O.faults l.output };

    fn write(&mut self, piece: &[u8]) -> Result<usize, Failed> {
        self.output.write(piece)
    }
}

impl<I: Source, O: Sink> Link for PairLink<I, O> {
    fn hear(&mut self, buf: &mut [u8]) -> Result<usize, Failed> {
        self.input.read(buf)
    }

    fn tell(&mut self, piece: &[u8]) -> Result<usize, Failed> {
        self.output.write(piece)
    }
}
