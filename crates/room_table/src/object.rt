// The objects of the world.
use game_tables::{Body, Kind};

/// An object of a room.
///
/// Its id is its birth room's index times 2^32 plus a serial of that room from 1 on. Which fields a
/// kind uses, and in which ranges, is said in docs/formats.md; a field that it does not use is 0,
/// and a body that it does not use is empty.
#[derive(Clone, Copy)]
pub struct Object {
    pub id: u64,
    pub kind: Kind,
    /// The column of its tile, 0 to 49.
    pub x: u8,
    /// The row of its tile, 0 to 49.
    pub y: u8,
    /// The player it belongs to, or 0 for nobody.
    pub owner: u32,
    pub hits: u32,
    pub energy: u64,
    /// Ticks to renewal, decay, death or the end of a spawning.
    pub timer: u32,
    /// A controller's level, a creep's fatigue, or the number of a site's kind.
    pub extra: u32,
    pub progress: u64,
    /// The player who reserves a controller, or 0 for nobody.
    pub other: u32,
    /// The ticks of that reservation; of a creep in the course of a tick, 1 where it moved.
    pub other_ticks: u32,
    pub body: Body,
}
