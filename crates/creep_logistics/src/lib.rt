// The rules of what creeps carry: dropping it, handing it over, taking it and picking it up.
#![tactic(auto)]

mod amounts;
mod handing;
mod load;
mod picking;

pub use handing::{transfer, withdraw};
pub use load::drop_load;
pub use picking::pickup;
