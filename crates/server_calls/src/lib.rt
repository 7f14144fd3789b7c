// The commands of the program, each over the files that its words name.
#![tactic(auto)]

mod calls;
mod ended;

pub use calls::{refused_words, run_command};
pub use ended::{Ended, Place, PlacedTrouble};
