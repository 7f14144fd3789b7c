// The steps of upkeep in their order.
ghost use Rattle.std.specs.Prelude.{◌≡◌, List};
ghost use Rattle.std.specs.List.{AllByRecursion};
ghost use Rattle.room_terrain.specs.declared.terrain.Ground.{Ground};
ghost use Rattle.room_table.specs.Tables.{IsOnTile};
ghost use Rattle.room_table.specs.Tallies.{no_tallies};
ghost use Rattle.world_rules.specs.RoomParts.{table_part};
ghost use Rattle.world_rules.specs.RuleBook.{Sums};
ghost use Rattle.world_rules.specs.Claims.{controllers_aged};
ghost use Rattle.world_rules.specs.RoomTick.{room_after_steps};
ghost use Rattle.world_rules.specs.Upkeep.{buildings_decayed, first_steps, last_steps};
ghost use Rattle.room_rules.specs.Calls.{AreSumsOf, IsReadyFor, KeepsUpTo};
ghost use Rattle.upkeep_rules.specs.Falling.{may_fall, may_leave};

use crate::filling::fill_spawns;
use crate::pass::{Step, pass};
use crate::wearing::{Wear, wear_all};
use game_tables::source_capacity;
use object_store::{RoomTable, is_owned_room, is_taken};

/// The steps up to the gain of spawns: creeps and buildings have the hits that the tick leaves them, or are
/// gone; what creeps carry above what their live parts hold falls; creeps age; they recover; and spawns gain
/// energy. What was done to objects is forgotten then. It takes no memory but the spare of the room, of which
/// each creep or building may need two.
pub fn upkeep_first(room: &mut RoomTable)
    requires ready { IsReadyFor (may_leave room.old.objects) room.old }
    ensures rule { (grounds : List Ground) (sums : Sums) → AreSumsOf sums room.old
        → table_part grounds room.new ≡ room_after_steps sums first_steps (table_part grounds room.old) }
    ensures settled { room.new.tallies ≡ no_tallies }
    ensures keeps { KeepsUpTo (may_leave room.old.objects) room.old room.new }
{
    room.stands_in_order();
    wear_all(room, Wear::Strike);
    wear_all(room, Wear::Unload);
    wear_all(room, Wear::Age);
    pass(room, Step::Recover);
    fill_spawns(room);
    room.clear_sums();
}

/// The step before the renewal of sources: controllers lose time. It takes no memory.
pub fn age_controllers(room: &mut RoomTable)
    requires tiles { AllByRecursion IsOnTile room.old.objects }
    ensures rule { (grounds : List Ground)
        → table_part grounds room.new ≡ controllers_aged (table_part grounds room.old) }
    ensures keeps { KeepsUpTo 0 room.old room.new }
{
    pass(room, Step::Control);
}

/// The steps from the renewal of sources on: sources are renewed, containers and roads decay, and piles do,
/// those of the containers that went too. It takes no memory but the spare of the room, of which each
/// container or road that holds energy may need one.
pub fn upkeep_last(room: &mut RoomTable)
    requires ready { IsReadyFor (may_fall room.old.objects) room.old }
    ensures rule { (grounds : List Ground) (sums : Sums)
        → table_part grounds room.new ≡ room_after_steps sums last_steps (table_part grounds room.old) }
    ensures keeps { KeepsUpTo (may_fall room.old.objects) room.old room.new }
{
    // The objects rise by their ids, so that the controller is that of the room's part.
    room.stands_in_order();
    let capacity = source_capacity(is_taken(room.controller()));
    pass(room, Step::Renew(capacity));
    decay_buildings(room);
    pass(room, Step::Decay);
}

// Containers and roads decay, one after the other; containers slower in a room that somebody owns.
fn decay_buildings(room: &mut RoomTable)
    requires ready { IsReadyFor (may_fall room.old.objects) room.old }
    ensures rule { (grounds : List Ground)
        → table_part grounds room.new ≡ buildings_decayed (table_part grounds room.old) }
    ensures keeps { KeepsUpTo (may_fall room.old.objects) room.old room.new }
{
    // The objects rise by their ids, so that the controller is that of the room's part.
    room.stands_in_order();
    let in_owned = is_owned_room(room.controller());
    wear_all(room, Wear::Weather(in_owned));
}
