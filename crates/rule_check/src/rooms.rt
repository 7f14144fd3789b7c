// Rules that each room keeps.
ghost use Rattle.std.specs.Prelude.{◌≡◌, ◌≤◌, ◌<◌, ℕ, MatchBool, slice_get, count_by, Some};
ghost use Rattle.game_tables.specs.Kinds.{is_controller};
ghost use Rattle.world_rules.specs.Rules.{IsWall, HasOpenCorner};
ghost use Rattle.rule_check.specs.inner.Checks.{IsLeast, RoomAt, HasNameBefore};
ghost use Rattle.rule_check.specs.declared.view.RoomView.{RoomView};

use crate::view::RoomView;
use game_tables::is_controller;
use object_store::{Ground, RoomName, Terrain};

/// A rule that each room keeps, with what is looked at beside the room.
pub trait RoomRule {
    ghost broken: { Self → ℕ → RoomView → Type 0 };

    /// Whether the room of this index breaks the rule.
    fn is_broken(&self, index: usize, room: &RoomView) -> bool
        ensures { MatchBool result (broken self.now index room.now) (broken self.now index room.now → ⊥) };
}

/// The least index of a room that breaks the rule.
pub fn first_room<R: RoomRule>(rule: &R, rooms: &[RoomView]) -> Option<u64>
    ensures { IsLeast (RoomAt (R.broken rule.now) rooms.now) result }
{
    for (index, room) in rooms.iter().enumerate() {
        if rule.is_broken(index, room) {
            return Some(index as u64);
        }
    }
    None
}

/// No earlier room has the name of a room.
#[derive(Clone, Copy)]
pub struct NamesOnce<'a> {
    pub rooms: &'a [RoomView<'a>],
}

impl RoomRule for NamesOnce<'_> {
    ghost broken = { λ rule index room. HasNameBefore rule.rooms.now index room.name };

    fn is_broken(&self, index: usize, room: &RoomView) -> bool {
        has_name_before(self.rooms, index, room.name)
    }
}

// Whether a room of a lesser index has the name.
fn has_name_before(rooms: &[RoomView], index: usize, name: RoomName) -> bool
    ensures { MatchBool result (HasNameBefore rooms.now index name) (HasNameBefore rooms.now index name → ⊥) }
{
    for (earlier, room) in rooms.iter().enumerate() {
        if earlier < index && room.name == name {
            return true;
        }
    }
    false
}

/// The corners of a room are walls.
#[derive(Clone, Copy)]
pub struct WallCorners;

impl RoomRule for WallCorners {
    ghost broken = { λ rule index room. HasOpenCorner room.terrain.now };

    fn is_broken(&self, _index: usize, room: &RoomView) -> bool {
        !is_wall(room.terrain, 0, 0)
            || !is_wall(room.terrain, 49, 0)
            || !is_wall(room.terrain, 0, 49)
            || !is_wall(room.terrain, 49, 49)
    }
}

/// Whether the tile is a wall.
pub fn is_wall(terrain: &Terrain, x: u8, y: u8) -> bool
    ensures { MatchBool result (IsWall terrain.now x y) (IsWall terrain.now x y → ⊥) }
{
    match terrain.grounds().get(50 * y as usize + x as usize) {
        Some(Ground::Wall) => true,
        _ => false,
    }
}

/// A room has at most one controller.
#[derive(Clone, Copy)]
pub struct OneController;

impl RoomRule for OneController {
    ghost broken = { λ rule index room. 2 ≤ count_by (λ object. is_controller object.kind) room.objects.now };

    fn is_broken(&self, _index: usize, room: &RoomView) -> bool {
        let controllers = room
            .objects
            .iter()
            .filter(|object| is_controller(object.kind))
            .count();
        controllers >= 2
    }
}
