// The rules of what creeps work: harvesting, repairing, building and dismantling.
#![tactic(auto)]

mod building;
mod dismantling;
mod harvesting;
mod repairing;

pub use building::build;
pub use dismantling::dismantle;
pub use harvesting::harvest;
pub use repairing::repair;
