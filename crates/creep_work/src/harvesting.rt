// What creeps harvest of sources.
ghost use Rattle.std.specs.Prelude.{◌≡◌, ◌+◌, ◌*◌, ◌^◌, ◌<◌, ◌≤◌, min, List};
ghost use Rattle.room_terrain.specs.declared.terrain.Ground.{Ground};
ghost use Rattle.room_table.specs.Stores.{free_room};
ghost use Rattle.world_rules.specs.RoomParts.{controller_of, table_part};
ghost use Rattle.world_rules.specs.Work.{harvested, live_work};
ghost use Rattle.room_rules.specs.Calls.{IsReady, Keeps, KeepsTallies};

use action_checks::parties;
use falling_energy::fall;
use game_tables::{Action, Part};
use intent_book::Intent;
use object_store::{Object, RoomTable, capacity};

/// Rules an entry to harvest: where it takes effect, 2 for each live WORK part leave the source, as far
/// as it has them. The creep takes what it has room for, and the rest falls on its tile. Else nothing is
/// done.
pub fn harvest(room: &mut RoomTable, intent: &Intent)
    requires ready { IsReady room.old }
    ensures rule { (grounds : List Ground)
        → table_part grounds room.new ≡ harvested intent.now (table_part grounds room.old) }
    ensures tallies { KeepsTallies room.old room.new }
    ensures keeps { Keeps room.old room.new }
{
    let Some((creep, source)) = parties(Action::Harvest, room, intent) else {
        return;
    };
    let amount = mined(&creep).min(source.energy);
    let taken = taken(room, &creep, amount);
    room.set(Object {
        energy: source.energy - amount,
        ..source
    });
    room.set(Object {
        energy: creep.energy + taken,
        ..creep
    });
    fall(room, creep.x, creep.y, amount - taken);
}

// What the live WORK parts of a creep get out of a source that has it.
fn mined(creep: &Object) -> u64
    ensures { result ≡ 2 * live_work creep.now }
{
    2 * u64::from(creep.body.live(Part::Work, creep.hits))
}

/// How much of an amount a creep of the room has room for.
pub(crate) fn taken(room: &RoomTable, creep: &Object, amount: u64) -> u64
    ensures part { (grounds : List Ground)
        → result ≡ min amount (free_room (controller_of (table_part grounds room.now)) creep.now) }
    ensures fits { creep.now.energy + result < 2 ^ 64 }
    ensures within { result ≤ amount }
{
    // The objects rise by their ids, so that the controller is that of the room's part.
    room.stands_in_order();
    let most = capacity(creep, room.controller());
    amount.min(most.saturating_sub(creep.energy))
}
