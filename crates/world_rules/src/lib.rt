// What the world is, what one tick makes of it, and the rules that it keeps: the definitions that
// the crates above cite.
#![tactic(auto)]

mod claims;
mod examples;
mod fights;
mod framed;
mod rule;
mod sights;
mod sited;
mod sound;
mod works;

pub use claims::{aging_examples, claim_examples, upgrade_examples};
pub use examples::{bucket_examples, drop_examples, entry_examples, upkeep_examples};
pub use fights::{fight_examples, hits_examples};
pub use framed::{
    change_examples, crossing_examples, dropping_examples, harm_examples, movement_examples,
    mover_examples, step_examples,
};
pub use rule::Rule;
pub use sights::gives_sight;
pub use sited::{sight_examples, site_examples, spawn_examples};
pub use sound::stored_in_one_way;
pub use works::{decay_examples, fatigue_examples, load_examples, work_examples};
