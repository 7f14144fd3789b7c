// The rooms of a world, stepped by several workers.
#![tactic(auto)]

mod jobs;
mod shared;
mod steps;

pub use shared::{StepsBy, stepped_by_workers};
pub use steps::steps_by_workers;
