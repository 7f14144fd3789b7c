// The rules of objects, tested over what changed: by a census of a world's ids and sites.
#![tactic(auto)]

mod census;
mod counted;
mod places;
mod room;
mod sites;
mod tally;

pub use census::Census;
pub use sites::has_few_sites;
