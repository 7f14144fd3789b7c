// Numbers and parts of byte texts, read by a cursor and written to a vector.
#![tactic(auto)]

mod cursor;
mod leb;
mod put;

pub use cursor::{BadLeb, Cursor, Short};
pub use put::{put_leb_s64, put_leb_u32, put_u32, put_u64};
pub use std::alloc::AllocError as NoMemory;
