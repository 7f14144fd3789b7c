// What a creep drops of its load.
ghost use Rattle.std.specs.Prelude.{◌≡◌, List};
ghost use Rattle.room_terrain.specs.declared.terrain.Ground.{Ground};
ghost use Rattle.world_rules.specs.RoomParts.{table_part};
ghost use Rattle.world_rules.specs.Drops.{dropped};
ghost use Rattle.room_rules.specs.Calls.{IsReady, Keeps, KeepsTallies};

use crate::amounts::wanted;
use action_checks::takes_effect;
use falling_energy::fall;
use game_tables::Action;
use intent_book::Intent;
use object_store::{Object, RoomTable};

/// Rules an entry to drop: where it takes effect, the wanted amount of what the creep carries, or all
/// where it is 0, falls on its tile. Else nothing is done.
///
/// Where no pile is there, one is made under the room's next serial.
pub fn drop_load(room: &mut RoomTable, intent: &Intent)
    requires ready { IsReady room.old }
    ensures rule { (grounds : List Ground)
        → table_part grounds room.new ≡ dropped intent.now (table_part grounds room.old) }
    ensures tallies { KeepsTallies room.old room.new }
    ensures keeps { Keeps room.old room.new }
{
    let Some(creep) = room.get(intent.actor).copied() else {
        return;
    };
    if !takes_effect(Action::DropLoad, room, intent) {
        return;
    }
    let (x, y) = (creep.x, creep.y);
    let amount = wanted(intent.amount, creep.energy);
    room.set(Object {
        energy: creep.energy - amount,
        ..creep
    });
    fall(room, x, y, amount);
}
