// The rules of a world.

/// The rules that a world keeps between ticks, in the order in which they are tested.
#[derive(Clone, Copy, Debug, PartialEq, Eq)]
pub enum Rule {
    /// There is a room, and no more rooms, objects and players than may be.
    Counts,
    /// Room names differ.
    RoomTwice,
    /// The corners of a room are walls.
    Corner,
    /// An object's id is a serial that its birth room has given.
    Serial,
    /// Ids differ.
    IdTwice,
    /// An object stands on a tile for its kind.
    Tile,
    /// Objects share a tile only where their kinds may.
    Shared,
    /// An owner or reserver is a player, and the kind may have one.
    Owner,
    /// A room has at most one controller.
    Controllers,
    /// The fields of an object are in its kind's ranges.
    Range,
    /// A player is listed once.
    PlayerTwice,
    /// A player has no more sites than he may.
    Sites,
}
