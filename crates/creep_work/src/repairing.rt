// What creeps repair.
ghost use Rattle.std.specs.Prelude.{◌≡◌, ◌+◌, ◌^◌, ◌<◌, ◌≤◌, List};
ghost use Rattle.room_terrain.specs.declared.terrain.Ground.{Ground};
ghost use Rattle.world_rules.specs.RoomParts.{table_part};
ghost use Rattle.world_rules.specs.Work.{hits_gained, repair_cost, repaired};
ghost use Rattle.room_rules.specs.Calls.{IsReady, Keeps, KeepsTallies};

use action_checks::parties;
use game_tables::{Action, Part, hits_max};
use intent_book::Intent;
use object_store::{Object, RoomTable};

/// Rules an entry to repair: where it takes effect, the building gains 100 hits for each live WORK part,
/// as far as they are missing and the load pays them: 1 for each 100 that were begun. Else nothing is
/// done.
pub fn repair(room: &mut RoomTable, intent: &Intent)
    requires ready { IsReady room.old }
    ensures rule { (grounds : List Ground)
        → table_part grounds room.new ≡ repaired intent.now (table_part grounds room.old) }
    ensures tallies { KeepsTallies room.old room.new }
    ensures keeps { Keeps room.old room.new }
{
    let Some((creep, building)) = parties(Action::Repair, room, intent) else {
        return;
    };
    let gain = hits_gained(&creep, &building);
    room.set(Object {
        energy: creep.energy - repair_cost(gain),
        ..creep
    });
    room.set(Object {
        hits: building.hits + gain,
        ..building
    });
}

// The hits that a building gains by a creep.
fn hits_gained(creep: &Object, building: &Object) -> u32
    ensures gained { result ≡ hits_gained creep.now building.now }
    ensures fits { building.now.hits + result < 2 ^ 32 }
    ensures paid { repair_cost result ≤ creep.now.energy }
{
    let worked = 100 * creep.body.live(Part::Work, creep.hits);
    let missing = hits_max(building.kind, &building.body).saturating_sub(building.hits);
    let paid = creep.energy.saturating_mul(100);
    paid.min(u64::from(worked.min(missing))) as u32
}

// The energy that hits cost.
fn repair_cost(hits: u32) -> u64
    ensures { result ≡ repair_cost hits }
{
    u64::from(hits.div_ceil(100))
}
