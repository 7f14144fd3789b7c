// The objects of a room, and the table that holds them.
#![tactic(auto)]

mod controller;
mod object;
mod objects;
mod owners;
mod room_table;
mod slots;
mod standing;
mod stores;
mod tally;
mod tile_index;

pub use controller::{is_anothers, is_owned_room, is_taken, level_of};
pub use object::Object;
pub use objects::Objects;
pub use room_table::RoomTable;
pub use standing::Standing;
pub use stores::{capacity, free_room, site_building};
pub use tally::Tally;
