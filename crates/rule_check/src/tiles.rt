// The tiles that are for a kind.
ghost use Rattle.std.specs.Prelude.{◌≡◌, ◌<◌, ℕ, MatchBool, ◌||◌};
ghost use Rattle.room_terrain.specs.Tiles.{IsEdge};
ghost use Rattle.world_rules.specs.Rules.{IsOnWrongTile, IsWall};
ghost use Rattle.rule_check.specs.declared.view.RoomView.{RoomView};

use crate::objects::ObjectRule;
use crate::rooms::is_wall;
use crate::view::RoomView;
use object_store::{Kind, Object};

/// An object stands on a tile for its kind.
#[derive(Clone, Copy)]
pub struct TilesForKinds;

impl ObjectRule for TilesForKinds {
    ghost broken = { λ rule room object. IsOnWrongTile room.terrain.now object };

    fn is_broken(&self, room: &RoomView, object: &Object) -> bool {
        let on_wall = is_wall(room.terrain, object.x, object.y);
        let on_border = is_edge(object.x) || is_edge(object.y);
        match object.kind {
            Kind::Source | Kind::Controller => on_border,
            Kind::Creep | Kind::Pile => on_wall,
            _ => on_wall || on_border,
        }
    }
}

fn is_edge(coordinate: u8) -> bool
    ensures { MatchBool result (IsEdge coordinate) (IsEdge coordinate → ⊥) }
{
    coordinate == 0 || coordinate == 49
}
