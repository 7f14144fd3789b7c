// The rules of sites that players make and remove, and of creeps that spawns make.
#![tactic(auto)]

mod hatching;
mod sites;
mod spawning;

pub use hatching::hatch;
pub use sites::{create_site, remove_site};
pub use spawning::spawn;
