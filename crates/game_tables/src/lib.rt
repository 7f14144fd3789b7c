// The constants and tables of the game.
#![tactic(auto)]

mod action;
mod body;
mod by_kind;
mod code;
mod field;
mod kind;
mod level;
mod limit;

pub use action::{Action, dominates, is_target, max_range, needed_part};
pub use body::{Body, most_parts};
pub use by_kind::{
    build_total, built_hits, full_timer, hits_max, is_building, is_controller, is_creep,
    is_in_rules, is_owned, is_site, is_site_kind, may_have_owner, needs_owned_room, obstructs,
    pile_decay, renewal_ticks, source_capacity, stands_fixed, store_capacity,
};
pub use code::Code;
pub use field::{most_energy, most_extra, most_other_ticks, most_timer};
pub use kind::{Kind, Part};
pub use level::{LAST_LEVEL, allowed, downgrade_number, total_for_next};
pub use limit::{
    most_bucket, most_limit, most_memory, most_objects, most_players, most_points, most_rooms,
    most_sites, unit_instructions,
};
