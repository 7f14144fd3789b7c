// The rules that a room keeps by itself.
ghost use Rattle.std.specs.Prelude.{MatchBool, IfOk};
ghost use Rattle.rule_check.specs.Kept.{KeepsRoomRules};
ghost use Rattle.rule_check.specs.Views.{IsOrdered};

use crate::objects::first_object;
use crate::ranges::KindsRanges;
use crate::rooms::{OneController, RoomRule};
use crate::shared::blocked_in;
use crate::tiles::TilesForKinds;
use crate::view::RoomView;
use std::alloc::{AllocError, Global};

/// Whether the room keeps the rules that speak of its own objects and tiles alone.
///
/// It takes memory for the tiles of the room.
pub fn keeps_room_rules(alloc: Global, room: &RoomView) -> Result<bool, AllocError>
    requires { IsOrdered room.now }
    ensures { IfOk result (λ kept. MatchBool kept
        (KeepsRoomRules room.now.terrain.now room.now.objects.now)
        (KeepsRoomRules room.now.terrain.now room.now.objects.now → ⊥)) }
{
    if first_object(&TilesForKinds, room).is_some() {
        return Ok(false);
    }
    if first_object(&KindsRanges, room).is_some() {
        return Ok(false);
    }
    if OneController.is_broken(0, room) {
        return Ok(false);
    }
    Ok(blocked_in(alloc, room)?.is_none())
}
