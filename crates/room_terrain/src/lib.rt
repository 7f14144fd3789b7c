// Rooms: their names, their tiles with the ground on each, and the ways between tiles.
#![tactic(auto)]

mod direction;
mod geometry;
mod name;
mod terrain;

pub use direction::Direction;
pub use geometry::{mirror, range, step};
pub use name::{NotAName, RoomName};
pub use terrain::{Ground, Place, Terrain};
