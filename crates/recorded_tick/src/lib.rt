// The record of a tick: what changed of what is stored, and the law that such records may stand in a journal.
#![tactic(auto)]

mod changes;
mod laws;
mod record;
mod recorder;

pub use changes::are_alike;
pub use laws::{courses_can_be_hosted, courses_have_accepted_modules, records_may_stand};
pub use record::record_tick;
pub use recorder::{Recorder, catch_up};
pub use std::alloc::AllocError as NoMemory;
