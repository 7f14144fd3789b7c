// A log of contents on a disk: gate, frame, gate, frame and so on, up to a closed gate. Whatever a crash
// leaves stands for what stood before a call, or after it.
#![tactic(auto)]

mod fault;
mod laws;
mod log;
mod piece;
mod read;

pub use fault::{AppendFault, ReadFault};
pub use laws::bytes_stand_for_one_list;
pub use log::Log;
pub use read::{Behind, read_frame};
pub use std::alloc::AllocError as NoMemory;
