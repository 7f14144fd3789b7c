// What strangers reach the server by: links, the door by which they come, and the pace of the ticks.
#![tactic(auto)]

mod door;
mod link;
mod memory;
mod pace;
mod pair;

pub use door::Door;
pub use link::{Link, write_link};
pub use memory::MemoryLink;
pub use pace::Pace;
pub use pair::PairLink;
