// The checks of actions, which the desk of a player and the rules of a room read alike.
#![tactic(auto)]

mod checks;
mod effect;
mod held;
mod plans;
mod tiles;

pub use checks::{Scene, all_hold, first_failing};
pub use effect::{acting, parties, standing, takes_effect};
pub use held::held_by;
pub use plans::{
    Plan, counted_number, may_be_made, may_be_removed, removal_code, site_code, site_may_be_made,
    spawning_code,
};
pub use tiles::{ahead, is_open, is_open_ground};
