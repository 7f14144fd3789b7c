// The journal of a world on a disk: what it begins with, and the records of its ticks.
#![tactic(auto)]

mod at;
mod base;
mod fault;
mod frames;
mod journal;
mod laws;
mod recovered;
mod recovery;
mod untested;
mod uploaded;
mod walk;

pub use at::{TickRecords, records, span, tick_at, world_at};
pub use base::read_base;
pub use fault::{AppendFault, AtFault, RecoverFault};
pub use journal::Journal;
pub use laws::bytes_stand_for_one_journal;
pub use recovered::{Modules, Recovered, UploadCount, UploadCounts};
pub use std::alloc::AllocError as NoMemory;
pub use tick_journal::BytesFault;
pub use untested::UntestedWalk;
pub use walk::Walk;
