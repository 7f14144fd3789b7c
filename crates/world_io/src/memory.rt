// A source and a sink in memory, of which chosen calls fail.
ghost use Rattle.std.specs.Prelude.{◌≡◌, ℕ, ◌+◌, ◌<◌, ◌≤◌, ◌↔◌, ◌⊎◌, [], min, length, vec_len, vec_capacity};
ghost use Rattle.std.specs.Prelude.{Some, None, IsErr, IfOk, OnErr};
ghost use Rattle.std.specs.Io.{ReadsAtMost, WritesAtMost};
ghost use Rattle.std.specs.Io.KnownBytes.{ReadConsumes, WriteAppends};
ghost use Rattle.world_io.specs.Causes.{HasCause};
ghost use Rattle.world_io.specs.Outages.{NextIsOut, Counted, IsFresh};
ghost use Rattle.world_io.specs.Steady.{left_of};

use crate::outages::Outages;
use crate::sink::Sink;
use crate::source::{Failed, Source};
use crate::steady::SteadySource;
use std::alloc::Global;

/// A source in memory.
pub struct MemorySource {
    source: SteadySource,
    outages: Outages,
}

impl Drop for MemorySource {
    fn drop(self) {
        let MemorySource {
            source: _,
            outages: _,
        } = self;
    }
}

impl MemorySource {
    /// A source that gives these bytes. Its reads of the numbers in `fails` fail, counted from 0.
    pub fn new(bytes: Vec<u8>, fails: Vec<u64>) -> Self
        ensures left { left_of result.source ≡ bytes.items }
        ensures plan { IsFresh result.outages fails.items None }
    {
        MemorySource {
            source: SteadySource::new(bytes),
            outages: Outages::new(fails, None),
        }
    }
}

impl Source for MemorySource {
    ghost left = { λ s. Some (left_of s.source) };

    ghost faults = { λ s. s.outages.faults.count };

    /// Gives as much as there is and the buffer holds.
    fn read(&mut self, buf: &mut [u8]) -> Result<usize, Failed>
        requires { 0 < length buf.old }
        ensures bound { ReadsAtMost result buf.new }
        ensures bytes { ReadConsumes (Some (left_of self.old.source))
            (Some (left_of self.new.source)) result buf.new }
        ensures cause { HasCause self.old.outages.faults.count self.new.outages.faults.count result }
        ensures planned { IsErr result ↔ NextIsOut self.old.outages }
        ensures most { IfOk result (λ n. n ≡ min (length buf.old) (length (left_of self.old.source))) }
        ensures counted { Counted self.old.outages self.new.outages result }
    {
        self.outages.next_call()?;
        self.source.read(buf)
    }
}

/// A sink in memory.
pub struct MemorySink {
    bytes: Vec<u8>,
    outages: Outages,
}

impl Drop for MemorySink {
    fn drop(self) {
        let MemorySink {
            bytes: _,
            outages: _,
        } = self;
    }
}

impl MemorySink {
    /// A sink whose writes of the numbers in `fails` fail, counted from 0.
    pub fn new(alloc: Global, fails: Vec<u64>) -> Self
        ensures written { result.bytes.items ≡ [] }
        ensures no_memory { vec_capacity result.bytes ≡ 0 }
        ensures plan { IsFresh result.outages fails.items None }
    {
        MemorySink {
            bytes: Vec::new(alloc),
            outages: Outages::new(fails, None),
        }
    }

    /// The bytes that were written.
    pub fn written(&self) -> &[u8]
        ensures { result.now ≡ self.now.bytes.items }
    {
        &self.bytes
    }
}

impl Sink for MemorySink {
    ghost written = { λ s. Some s.bytes.items };

    ghost faults = { λ s. s.outages.faults.count };

    /// Takes the whole piece. It fails by plan, and where the bytes need more memory than there is.
    fn write(&mut self, piece: &[u8]) -> Result<usize, Failed>
        requires { 0 < length piece.now }
        ensures bound { WritesAtMost result piece.now }
        ensures some { IfOk result (λ n. 0 < n) }
        ensures bytes { WriteAppends (Some self.old.bytes.items)
            (Some self.new.bytes.items) result piece.now }
        ensures cause { HasCause self.old.outages.faults.count self.new.outages.faults.count result }
        ensures planned { NextIsOut self.old.outages → IsErr result }
        ensures only { OnErr result
            (NextIsOut self.old.outages
            ⊎ (vec_capacity self.old.bytes < length self.old.bytes.items + length piece.now)) }
        ensures most { IfOk result (λ n. n ≡ length piece.now) }
        ensures counted { Counted self.old.outages self.new.outages result }
    {
        self.outages.next_call()?;
        match self.bytes.extend_from_slice(piece) {
            Ok(()) => Ok(piece.len()),
            Err(_) => Err(self.outages.refuse()),
        }
    }
}
