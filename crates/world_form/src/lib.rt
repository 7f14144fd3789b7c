// The form of a world file: what its keys say, its first fault, the text that is written for a world,
// and the laws that tie them together.
#![tactic(auto)]

mod fault;
mod field;
mod laws;

pub use fault::WorldFault;
pub use field::Field;
pub use laws::{a_file_says_one_thing, a_written_world_is_read_back, keys_are_checked};
