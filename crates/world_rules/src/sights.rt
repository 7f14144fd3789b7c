// By which objects a player sees a room.
ghost use Rattle.std.specs.Prelude.{◌≡◌};
ghost use Rattle.world_rules.specs.Sights.{gives_sight};

use game_tables::{is_building, is_controller, is_creep};
use object_store::Object;

/// Whether the object is one by which the player sees its room: a creep, a building or a controller of his.
pub fn gives_sight(object: &Object, player: u32) -> bool
    ensures { result ≡ gives_sight player object.now }
{
    object.owner == player
        && (is_creep(object.kind) || is_building(object.kind) || is_controller(object.kind))
}
