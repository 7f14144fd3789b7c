// A world as its file lists it, before the rules are tested.
use crate::text::Text;
use object_store::{Account, Object, RoomName, Terrain};

/// A room with its objects in the order of their ids, of which two may be the same.
#[derive(Drop)]
pub struct RoomDraft {
    pub name: RoomName,
    pub terrain: Terrain,
    pub next: u32,
    pub objects: Vec<Object>,
}

/// The accounts of the players, and their numbers with their tokens.
#[derive(Drop)]
pub struct Players {
    pub accounts: Vec<Account>,
    pub tokens: Vec<(u32, Text)>,
}

/// The tick, the rooms and the players of a file.
#[derive(Drop)]
pub struct Draft {
    pub tick: u64,
    pub rooms: Vec<RoomDraft>,
    pub players: Players,
}
