// The stack of WebAssembly Core 1.0, chapter 4.2.12: values, labels and frames.
#![tactic(auto)]

mod control;
mod place;
mod stack;

pub use call_frames::{MOST_VALUES, MOST_WAITING as MOST_FRAMES};
pub use place::Place;
pub use stack::{MOST_CONTROLS, Stack};
