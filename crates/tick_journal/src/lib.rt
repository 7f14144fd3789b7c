// The journal of a run: the contents of its frames.
#![tactic(auto)]

mod accounts;
mod base;
mod contents;
mod entries;
mod entry_reader;
mod laws;
mod parts;
mod read_base;
mod tick_reader;
mod tick_record;

pub use contents::{write_base, write_tick};
pub use entries::{RunEntry, UploadEntry};
pub use laws::{bases_are_one, tick_contents_are_one};
pub use read_base::read_base_form;
pub use std::alloc::AllocError as NoMemory;
pub use tick_reader::read_tick;
pub use tick_record::{Accounts, ChangedRooms, Entries, Runs, TickRecord, Uploads};
pub use world_bytes::BytesFault;
