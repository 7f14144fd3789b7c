// The rules of what creeps do to controllers, and of what time does to them.
#![tactic(auto)]

mod claiming;
mod upgrading;

pub use claiming::{attack_controller, claim, reserve};
pub use upgrading::upgrade;
pub use upkeep_rules::age_controllers as age;
