// What creeps dismantle.
ghost use Rattle.std.specs.Prelude.{◌≡◌, List};
ghost use Rattle.room_terrain.specs.declared.terrain.Ground.{Ground};
ghost use Rattle.world_rules.specs.RoomParts.{table_part};
ghost use Rattle.world_rules.specs.Fights.{dismantled, harm_by_parties, salvage, tear, torn_by};
ghost use Rattle.room_rules.specs.Calls.{IsHarmedBy, IsReady, Keeps};

use crate::harvesting::taken;
use action_checks::parties;
use falling_energy::fall;
use game_tables::{Action, Part};
use intent_book::Intent;
use object_store::{Object, RoomTable};

/// Rules an entry to dismantle: where it takes effect, 50 for each live WORK part are added to the damage of
/// the building, and the creep gets 1 energy for each 200 of these hits, as far as the building has them.
/// What it has no room for falls on its tile. Else nothing is done.
pub fn dismantle(room: &mut RoomTable, intent: &Intent)
    requires ready { IsReady room.old }
    ensures rule { (grounds : List Ground)
        → table_part grounds room.new ≡ dismantled intent.now (table_part grounds room.old) }
    ensures harm { (grounds : List Ground) → IsHarmedBy
        (harm_by_parties Action.Dismantle torn_by intent.now (table_part grounds room.old))
        room.old room.new }
    ensures keeps { Keeps room.old room.new }
{
    // No sum of what was done to the objects passes its most.
    room.stands_in_order();
    let Some((creep, building)) = parties(Action::Dismantle, room, intent) else {
        return;
    };
    let tear = tear(&creep);
    room.add_damage(intent.target, tear);
    let amount = u64::from(tear.min(building.hits) / 200);
    let taken = taken(room, &creep, amount);
    room.set(Object {
        energy: creep.energy + taken,
        ..creep
    });
    fall(room, creep.x, creep.y, amount - taken);
}

// The hits that a creep tears down.
fn tear(creep: &Object) -> u32
    ensures { result ≡ tear creep.now }
{
    50 * creep.body.live(Part::Work, creep.hits)
}
