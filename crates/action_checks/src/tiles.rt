// The tiles that creeps may stand on, and those beside others.
ghost use Rattle.std.specs.Prelude.{◌≡◌, ◌<◌, Some, IfSome, option_and_then};
ghost use Rattle.world_rules.specs.RoomParts.{table_part};
ghost use Rattle.world_rules.specs.Moves.{is_open, is_open_ground, tile_towards, direction_of};

use object_store::{Ground, Place, RoomTable, Terrain};
use room_terrain::{Direction, step};

/// The tile in the direction of a number, where there is such a one and it is in the room.
pub fn ahead(x: u8, y: u8, number: u64) -> Option<(u8, u8)>
    ensures ahead { result ≡ option_and_then (λ to. tile_towards to x y) (direction_of number) }
    ensures inside { IfSome result (λ at. (at.0 < 50) × (at.1 < 50)) }
{
    let Some(to) = direction(number) else {
        return None;
    };
    let at = Place { room: 0, x, y };
    let Some(next) = step(at, to) else {
        return None;
    };
    Some((next.x, next.y))
}

// The direction of a number.
fn direction(number: u64) -> Option<Direction>
    ensures { result ≡ direction_of number }
{
    if number > 8 {
        return None;
    }
    Direction::of_number(number as u8)
}

/// Whether a player's creep may stand on a tile, as far as the ground and what obstructs are asked.
pub fn is_open(terrain: &Terrain, room: &RoomTable, player: u32, x: u8, y: u8) -> bool
    requires column { x < 50 }
    requires row { y < 50 }
    ensures { result ≡ is_open (table_part terrain.now room.now) player (x, y) }
{
    // The objects rise by their ids, so that those of the room's part are those of its table.
    room.stands_in_order();
    is_open_ground(terrain.at(x, y)) && !room.obstructed(x, y, player)
}

/// Whether a creep can stand on a ground.
pub fn is_open_ground(surface: Ground) -> bool
    ensures { result ≡ is_open_ground (Some surface) }
{
    match surface {
        Ground::Wall => false,
        _ => true,
    }
}
