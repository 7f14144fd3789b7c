// The rules of what creeps do to each other and to buildings: healing, attacks, and their own end.
#![tactic(auto)]

mod attacking;
mod ending;
mod healing;
mod mass;

pub use attacking::{attack, ranged_attack};
pub use ending::suicide;
pub use healing::{heal, ranged_heal};
pub use mass::mass_attack;
