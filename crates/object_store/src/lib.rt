// The world as it is stored: its rooms and its accounts.
#![tactic(auto)]

mod account;
mod bytes;
mod world;

pub use account::Account;
pub use bytes::Bytes;
pub use game_tables::{Body, Kind, Part};
pub use room_table::{
    Object, Objects, RoomTable, Standing, Tally, capacity, free_room, is_anothers, is_owned_room,
    is_taken, level_of, site_building,
};
pub use room_terrain::{Ground, NotAName, Place, RoomName, Terrain};
pub use world::{Room, World};
