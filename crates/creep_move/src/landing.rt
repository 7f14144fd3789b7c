// What a creep's step does to the room.
ghost use Rattle.std.specs.Prelude.{◌≡◌, ◌<◌, ◌≤◌, Some, length};
ghost use Rattle.std.specs.List.{AllByRecursion, count_by};
ghost use Rattle.room_table.specs.declared.object.Object.{Object};
ghost use Rattle.room_table.specs.Tables.{HasId, IsOnTile, find_object, with_object};
ghost use Rattle.world_rules.specs.Moves.{pace, weighs, weight};
ghost use Rattle.creep_move.specs.inner.Landing.{IsGoer, IsLanded, tired_on, worn_by};

use game_tables::{Body, Kind, Part};
use object_store::{Ground, Object, RoomTable, Terrain};

/// Lets a creep stand on another tile, which makes it tired and wears the road there.
pub fn land(terrain: &Terrain, room: &mut RoomTable, id: u64, x: u8, y: u8)
    requires column { x < 50 }
    requires row { y < 50 }
    requires tiles { AllByRecursion IsOnTile room.old.objects }
    requires goer { IsGoer room.old.objects id }
    ensures landed { (creep : Object) → find_object id room.old.objects ≡ Some creep → IsLanded x y
        (tired_on terrain.now room.old.objects x y creep) creep room.old.objects room.new.objects }
    ensures index { room.new.index ≡ room.old.index }
    ensures next { room.new.next ≡ room.old.next }
    ensures spare { room.new.spare ≡ room.old.spare }
    ensures tallies { room.new.tallies ≡ room.old.tallies }
    ensures tiles { AllByRecursion IsOnTile room.new.objects }
{
    // The objects rise by their ids, so that each is found by its own.
    room.stands_in_order();
    let Some(creep) = room.get(id) else {
        unreachable!()
    };
    let creep = *creep;
    let road = room.at(x, y, Kind::Road);
    let tired = weight(&creep) * pace(road.is_some(), terrain.at(x, y));
    room.set(Object {
        x,
        y,
        other_ticks: 1,
        extra: tired,
        ..creep
    });
    if let Some(road) = road {
        wear(room, road, creep.body.parts().len() as u32);
    }
}

// Wears a road by 1 for each of so many parts, down to 1.
fn wear(room: &mut RoomTable, id: u64, parts: u32)
    requires tiles { AllByRecursion IsOnTile room.old.objects }
    requires there { HasId id room.old.objects }
    ensures worn { (road : Object) → find_object id room.old.objects ≡ Some road
        → room.new ≡ record room.old { objects = with_object (worn_by parts road) room.old.objects } }
    ensures index { room.new.index ≡ room.old.index }
    ensures next { room.new.next ≡ room.old.next }
    ensures spare { room.new.spare ≡ room.old.spare }
    ensures tallies { room.new.tallies ≡ room.old.tallies }
    ensures tiles { AllByRecursion IsOnTile room.new.objects }
{
    let Some(road) = room.get(id) else {
        unreachable!()
    };
    let road = *road;
    room.set(Object {
        timer: road.timer.saturating_sub(parts).max(1),
        ..road
    });
}

// What a creep weighs: its parts other than MOVE and CARRY, and 1 for each 50 of its load that were begun.
fn weight(creep: &Object) -> u32
    requires { creep.now.energy ≤ 2500 }
    ensures weight { result ≡ weight creep.now }
    ensures within { result ≤ 150 }
{
    (heavy_parts(&creep.body) + (creep.energy + 49) / 50) as u32
}

// How many parts of a body weigh something.
fn heavy_parts(body: &Body) -> u64
    ensures heavy { result ≡ count_by weighs body.now }
    ensures within { result ≤ 50 }
{
    body.parts().iter().filter(|part| weighs(**part)).count() as u64
}

// Whether a part weighs something.
fn weighs(part: Part) -> bool
    ensures { result ≡ weighs part }
{
    !matches!(part, Part::Move | Part::Carry)
}

// What a step costs for each weight, onto a road or onto a ground.
fn pace(is_road: bool, surface: Ground) -> u32
    ensures pace { result ≡ pace is_road (Some surface) }
    ensures within { result ≤ 10 }
{
    match surface {
        _ if is_road => 1,
        Ground::Swamp => 10,
        _ => 2,
    }
}
