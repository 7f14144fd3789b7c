// The rules of a world, tested on the rooms, the objects and the accounts that a file or a table
// lists.
#![tactic(auto)]

mod counts;
mod first;
mod ids;
mod keeps;
mod least;
mod objects;
mod players;
mod ranges;
mod room_rules;
mod rooms;
mod shared;
mod tiles;
mod view;

pub use first::first_broken;
pub use keeps::{is_on_tiles, keeps_object_rules, keeps_rules, list_of};
pub use room_rules::keeps_room_rules;
pub use view::RoomView;
