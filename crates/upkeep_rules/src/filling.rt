// The gain of spawns.
ghost use Rattle.std.specs.Prelude.{◌≡◌, ◌<◌, min, List, length};
ghost use Rattle.std.specs.List.{AllByRecursion};
ghost use Rattle.room_terrain.specs.declared.terrain.Ground.{Ground};
ghost use Rattle.room_table.specs.Tables.{IsOnTile, IsRising};
ghost use Rattle.world_rules.specs.RoomParts.{table_part};
ghost use Rattle.world_rules.specs.Upkeep.{filled, spawn_capacity};
ghost use Rattle.world_rules.specs.Spawns.{held_by};
ghost use Rattle.upkeep_rules.specs.inner.Filled.{has_room, IsFilled, IsKnown};

use action_checks::held_by;
use game_tables::Kind;
use object_store::{Object, RoomTable};

// The energy that a spawn holds.
const SPAWN_CAPACITY: u64 = 300;

// What the spawns and extensions of an owner hold together, or the energy of one spawn where that is less.
#[derive(Clone, Copy)]
struct Held {
    owner: u32,
    energy: u64,
}

/// Spawns gain energy, one after the other in rising id.
pub(crate) fn fill_spawns(room: &mut RoomTable)
    requires tiles { AllByRecursion IsOnTile room.old.objects }
    ensures rule { (grounds : List Ground)
        → table_part grounds room.new ≡ filled (table_part grounds room.old) }
    ensures table { room.new ≡ record room.old { objects = room.new.objects } }
    ensures tiles { AllByRecursion IsOnTile room.new.objects }
{
    // The objects rise by their ids, as those of the room's part do.
    room.stands_in_order();
    let mut known = None;
    let mut place = 0;
    while place < room.len() {
        known = fill_at(room, place, known);
        place += 1;
    }
}

// The gain of the object at a place. What an owner holds is summed up anew only where it isn't known.
fn fill_at(room: &mut RoomTable, place: u32, known: Option<Held>) -> Option<Held>
    requires inside { place < length room.old.objects }
    requires tiles { AllByRecursion IsOnTile room.old.objects }
    requires known { IsKnown known room.old.objects }
    ensures known { IsKnown result room.new.objects }
    ensures rising { IsRising room.old.objects }
    ensures filled { IsFilled place room.old room.new }
{
    room.stands_in_order();
    let Some(object) = room.nth(place) else {
        unreachable!()
    };
    if !has_room(object) {
        return known;
    }
    let spawn = *object;
    let held = held_for(room, spawn.owner, known);
    if held.energy >= SPAWN_CAPACITY {
        return Some(held);
    }
    room.set(Object {
        energy: spawn.energy + 1,
        ..spawn
    });
    Some(Held {
        energy: held.energy + 1,
        ..held
    })
}

// Whether an object is a spawn that has room for energy.
fn has_room(object: &Object) -> bool
    ensures { result ≡ has_room object.now.kind object.now.energy }
{
    matches!(object.kind, Kind::Spawn) && object.energy < SPAWN_CAPACITY
}

// What the spawns and extensions of an owner hold together, as far as it counts.
fn held_for(room: &RoomTable, owner: u32, known: Option<Held>) -> Held
    requires known { IsKnown known room.now.objects }
    ensures owner { result.owner ≡ owner }
    ensures held { result.energy ≡ min spawn_capacity (held_by owner room.now.objects) }
{
    match known {
        Some(held) if held.owner == owner => held,
        _ => Held {
            owner,
            energy: held_by(room.objects(), owner, SPAWN_CAPACITY),
        },
    }
}
