// Crossings: creeps that moved onto a border tile go to the next room, after all rooms.
#![tactic(auto)]

mod crossing;
mod leaving;

pub use crossing::cross;
pub use leaving::{Crosser, all_crossers, crossers};
