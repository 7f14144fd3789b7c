// The end that a creep makes of itself.
ghost use Rattle.std.specs.Prelude.{◌≡◌, List};
ghost use Rattle.room_terrain.specs.declared.terrain.Ground.{Ground};
ghost use Rattle.world_rules.specs.RoomParts.{table_part};
ghost use Rattle.world_rules.specs.Fights.{ended};
ghost use Rattle.room_rules.specs.Calls.{IsReady, Keeps, KeepsTallies};

use action_checks::acting;
use game_tables::Action;
use intent_book::Intent;
use object_store::{Object, RoomTable};

/// Rules an entry by which a creep ends itself: where it takes effect, the creep has no hits left. It stands
/// until upkeep takes it away. Else nothing is done.
pub fn suicide(room: &mut RoomTable, intent: &Intent)
    requires ready { IsReady room.old }
    ensures rule { (grounds : List Ground)
        → table_part grounds room.new ≡ ended intent.now (table_part grounds room.old) }
    ensures tallies { KeepsTallies room.old room.new }
    ensures keeps { Keeps room.old room.new }
{
    let Some(creep) = acting(Action::Suicide, room, intent) else {
        return;
    };
    room.set(Object { hits: 0, ..creep });
}
