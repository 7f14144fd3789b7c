// A link in memory, of which chosen calls fail.
ghost use Rattle.std.specs.Prelude.{◌≡◌, Some, []};

use crate::pair::PairLink;
use std::alloc::Global;
use world_io::{MemorySink, MemorySource, Sink, Source};

/// A link in memory. A write that finds no memory fails.
pub type MemoryLink = PairLink<MemorySource, MemorySink>;

impl PairLink<MemorySource, MemorySink> {
    /// A link that gives these bytes and then its end. Its reads and writes of these numbers fail, each
    /// counted from 0.
    pub fn new(alloc: Global, bytes: Vec<u8>, read_fails: Vec<u64>, write_fails: Vec<u64>) -> Self
        ensures left { ⟦<MemorySource as Source>⟧.left result.input ≡ Some bytes.items }
        ensures written { ⟦<MemorySink as Sink>⟧.written result.output ≡ Some [] }
    {
        PairLink {
            input: MemorySource::new(bytes, read_fails),
            output: MemorySink::new(alloc, write_fails),
        }
    }

    /// The bytes that were written.
    pub fn written(&self) -> &[u8]
        ensures { ⟦<MemorySink as Sink>⟧.written self.now.output ≡ Some result.now }
    {
        self.output.written()
    }
}
