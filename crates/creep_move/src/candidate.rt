// The steps that entries to move are for.
ghost use Rattle.std.specs.Prelude.{◌≡◌, ◌<◌, Some, IfSome, option_map};
ghost use Rattle.std.specs.List.{AllByRecursion};
ghost use Rattle.room_terrain.specs.Tiles.{tile};
ghost use Rattle.room_table.specs.Tables.{IsOnTile};
ghost use Rattle.world_rules.specs.RoomParts.{table_part};
ghost use Rattle.world_rules.specs.Moves.{mover_of, mover_towards};
ghost use Rattle.creep_move.specs.inner.Arrivals.{as_mover, ComesFrom, IsStepOf};

use action_checks::{ahead, is_open, takes_effect};
use game_tables::Action;
use intent_book::Intent;
use object_store::{Object, RoomTable, Terrain};

/// A creep that would step from the tile of a number to another.
#[derive(Clone, Copy)]
pub struct Step {
    pub creep: u64,
    pub x: u8,
    pub y: u8,
    pub from: u16,
}

/// The number of a tile, row by row.
pub fn tile_number(x: u8, y: u8) -> u16
    requires column { x < 50 }
    requires row { y < 50 }
    ensures number { result ≡ tile x y }
    ensures within { result < 2500 }
{
    50 * u16::from(y) + u16::from(x)
}

/// The step of an entry, where its checks hold and its tile is open.
pub fn candidate(terrain: &Terrain, room: &RoomTable, intent: &Intent) -> Option<Step>
    requires { AllByRecursion IsOnTile room.now.objects }
    ensures mover { option_map as_mover result ≡ mover_of (table_part terrain.now room.now) intent.now }
    ensures from { IfSome result
        (λ step. ComesFrom (table_part terrain.now room.now) (as_mover step) step.from) }
{
    if !takes_effect(Action::Move, room, intent) {
        return None;
    }
    let Some(creep) = room.get(intent.actor) else {
        return None;
    };
    toward(terrain, room, creep, intent.amount)
}

// The step of a creep in the direction of a number, where its tile is open.
fn toward(terrain: &Terrain, room: &RoomTable, creep: &Object, number: u64) -> Option<Step>
    requires column { creep.now.x < 50 }
    requires row { creep.now.y < 50 }
    ensures mover { option_map as_mover result
        ≡ mover_towards (table_part terrain.now room.now) number creep.now }
    ensures from { IfSome result (IsStepOf creep.now) }
{
    let Some((x, y)) = ahead(creep.x, creep.y, number) else {
        return None;
    };
    if !is_open(terrain, room, creep.owner, x, y) {
        return None;
    }
    Some(Step {
        creep: creep.id,
        x,
        y,
        from: tile_number(creep.x, creep.y),
    })
}
