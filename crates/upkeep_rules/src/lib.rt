// Upkeep: what time does to the objects of a room at the end of a tick.
#![tactic(auto)]

mod control;
mod filling;
mod pass;
mod upkeep;
mod wearing;

pub use control::full_time;
pub use upkeep::{age_controllers, upkeep_first, upkeep_last};
