// How much energy goes from one object to another.
ghost use Rattle.std.specs.Prelude.{◌≡◌, ◌+◌, ◌-◌, ◌^◌, ◌<◌, List};
ghost use Rattle.room_terrain.specs.declared.terrain.Ground.{Ground};
ghost use Rattle.room_table.specs.Stores.{free_room};
ghost use Rattle.world_rules.specs.RoomParts.{table_part, controller_of};
ghost use Rattle.world_rules.specs.Drops.{wanted_of};

use object_store::{Object, RoomTable, capacity};

/// What is wanted of so much: all of it where no amount is named.
pub(crate) fn wanted(amount: u64, all: u64) -> u64
    ensures { result ≡ wanted_of amount all }
{
    if amount == 0 { all } else { amount.min(all) }
}

/// How much more energy an object takes in a room.
pub(crate) fn free_in(room: &RoomTable, object: &Object) -> u64
    ensures room { (grounds : List Ground)
        → result ≡ free_room (controller_of (table_part grounds room.now)) object.now }
    ensures fits { object.now.energy + result < 2 ^ 64 }
{
    // The objects rise by their ids, so that the controller of the room's part is that of its table.
    room.stands_in_order();
    missing(capacity(object, room.controller()), object.energy)
}

// How much is missing to a capacity: nothing where there is more.
fn missing(capacity: u64, energy: u64) -> u64
    ensures missing { result ≡ capacity - energy }
    ensures fits { energy + result < 2 ^ 64 }
{
    capacity.saturating_sub(energy)
}
