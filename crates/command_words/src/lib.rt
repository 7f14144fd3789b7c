// The words of a call of the program, and the command that they say.
#![tactic(auto)]

mod choices;
mod command;
mod number;
mod read;
mod simple;

pub use command::{Command, GenPart, WordsFault};
pub use read::read_words;
