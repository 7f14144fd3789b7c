// One tick of the world: the entries that count, then movement and upkeep of every room, the accounts, and
// crossings.
#![tactic(auto)]

mod act;
mod gains;
mod rooms;
mod tick;

pub use act::{copied, rule, widen};
pub use gains::add_gain;
pub use rooms::tick_table;
pub use std::alloc::AllocError as NoMemory;
pub use tick::{raised_points, tick_plain, tick_taken};
