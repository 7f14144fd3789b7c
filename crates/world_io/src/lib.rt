// The outside of the server: sources, sinks and disks, by what they tell of their bytes and how often they
// failed; and the gate that workers pass.
#![tactic(auto)]

mod change;
mod count;
mod disk;
mod files;
mod gate;
mod memory;
mod memory_disk;
mod outages;
mod pending;
mod progress;
mod settle;
mod sink;
mod source;
mod steady;
mod stream;
mod tick_line;
mod trouble;

pub use disk::Disk;
pub use files::{FileDisk, FileSink, FileSource};
pub use gate::{Gate, OpenGate};
pub use memory::{MemorySink, MemorySource};
pub use memory_disk::MemoryDisk;
pub use progress::ProgressSink;
pub use settle::{cut_synced, write_synced};
pub use sink::{Sink, write_all};
pub use source::{Failed, ReadStop, Source, read_all};
pub use steady::{SteadySink, SteadySource};
pub use stream::StreamSink;
pub use trouble::{Deed, Trouble};
