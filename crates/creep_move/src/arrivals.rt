// From where the winner of each tile comes.
ghost use Rattle.std.specs.Prelude.{◌≡◌, ◌<◌, ℕ, if◌then◌else◌, length, set, slice_index};
ghost use Rattle.std.specs.List.{AllByRecursion};
ghost use Rattle.room_terrain.specs.Tiles.{tile};
ghost use Rattle.room_table.specs.Tables.{IsOnTile};
ghost use Rattle.world_rules.specs.RoomParts.{table_part};
ghost use Rattle.creep_move.specs.inner.Arrivals.{Arrives, leads};

use crate::candidate::{Step, candidate, tile_number};
use intent_book::Intent;
use object_store::{RoomTable, Terrain};

/// The number that stands for no tile.
pub const NOBODY: u16 = 2500;

/// Writes for each tile from where its winner comes, `NOBODY` where no creep would step there, and which
/// creep that is.
pub fn arrivals(
    terrain: &Terrain,
    room: &RoomTable,
    moves: &[Intent],
    comes: &mut [u16],
    best: &mut [u64],
)
    requires tiles { AllByRecursion IsOnTile room.now.objects }
    requires comes { length comes.old ≡ 2500 }
    requires best { length best.old ≡ 2500 }
    requires nobody { (t : ℕ) → t < 2500 → slice_index comes.old t ≡ 2500 }
    ensures { (t : ℕ) → t < 2500 → Arrives (table_part terrain.now room.now) moves.now t
        (slice_index comes.new t) (slice_index best.new t) }
{
    for intent in moves {
        if let Some(step) = candidate(terrain, room, intent) {
            arrive(step, comes, best);
        }
    }
}

// Writes a step down where its creep is the least so far that would go to its tile.
fn arrive(step: Step, comes: &mut [u16], best: &mut [u64])
    requires column { step.x < 50 }
    requires row { step.y < 50 }
    requires comes { length comes.old ≡ 2500 }
    requires best { length best.old ≡ 2500 }
    ensures comes { comes.new
        ≡ (if leads step comes.old best.old
        then set comes.old (tile step.x step.y) step.from else comes.old) }
    ensures best { best.new
        ≡ (if leads step comes.old best.old then set best.old (tile step.x step.y) step.creep else best.old) }
{
    let to = tile_number(step.x, step.y) as usize;
    if comes[to] == NOBODY || step.creep < best[to] {
        comes[to] = step.from;
        best[to] = step.creep;
    }
}
