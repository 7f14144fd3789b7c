// What the calls for sites, creeps and controllers count, of what a player sees.
#![tactic(auto)]

mod census;
mod told;

pub use census::Census;
pub use std::alloc::AllocError as NoMemory;
pub use told::Told;
