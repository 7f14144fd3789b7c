// Rooms as the test of the rules looks at them.
use object_store::{Object, RoomName, Terrain};

/// A room with its objects, lent from a file's draft or from a stored world.
#[derive(Clone, Copy)]
pub struct RoomView<'a> {
    pub name: RoomName,
    pub terrain: &'a Terrain,
    /// The serial of the room's next new object.
    pub next: u32,
    /// In the order of their ids.
    pub objects: &'a [Object],
}
