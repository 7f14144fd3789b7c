// Energy that falls on the tiles of a room, which many rules let happen.
#![tactic(auto)]

mod falls;

pub use falls::fall;
