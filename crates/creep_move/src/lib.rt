// Movement: which creeps of a room step in a tick, and what they leave.
#![tactic(auto)]

mod arrivals;
mod candidate;
mod landing;
mod moving;
mod walk;

pub use moving::settle_moves;
