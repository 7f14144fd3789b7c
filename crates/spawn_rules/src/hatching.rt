// Creeps that come of spawns.
ghost use Rattle.std.specs.Prelude.{◌≡◌, ◌+◌, ◌<◌, Option, IfSome, Some};
ghost use Rattle.std.specs.Option.{is_some};
ghost use Rattle.game_tables.specs.declared.kind.Kind.TheVariants.{Spawn};
ghost use Rattle.room_table.specs.Tables.{find_object};
ghost use Rattle.world_rules.specs.RoomParts.{table_part};
ghost use Rattle.world_rules.specs.Moves.{direction_of};
ghost use Rattle.world_rules.specs.Spawns.{hatched, hatched_as, hatched_on, is_free_for_creep, newborn};
ghost use Rattle.world_rules.specs.Spawns.{tile_for};
ghost use Rattle.room_rules.specs.Calls.{IsReadyFor, KeepsUpTo};
ghost use Rattle.spawn_rules.specs.Spare.{is_spawn, may_hatch};
ghost use Rattle.spawn_rules.specs.inner.Hatching.{free_towards, left_from, HaveIds, IsHatchedFrom};
ghost use Rattle.spawn_rules.specs.inner.Hatching.{KeepsOthers};

use action_checks::{ahead, is_open};
use game_tables::{Body, Kind, hits_max};
use object_store::{Object, RoomTable, Terrain};

/// Spawns make creeps, one after the other in rising id: a timer of 2 or more falls by 1, and at 1 the creep
/// comes onto the first tile in the eight directions, from the top clockwise, that is no wall and on which no
/// creep stands and nothing that obstructs; else the spawn waits. It takes no memory but the spare of the
/// room, of which each spawn may need one.
pub fn hatch(ground: &Terrain, room: &mut RoomTable)
    requires ready { IsReadyFor (may_hatch room.old.objects) room.old }
    ensures rule { table_part ground.now room.new ≡ hatched (table_part ground.now room.old) }
    ensures keeps { KeepsUpTo (may_hatch room.old.objects) room.old room.new }
{
    // The objects rise by their ids, as those of the room's part do.
    room.stands_in_order();
    room.ids_fit();
    let mut next = Some(0);
    while let Some(from) = next {
        next = hatch_from(ground, room, from);
    }
}

// The turn of the object of the least id that is at least this one. Answers from which id on the others are.
fn hatch_from(ground: &Terrain, room: &mut RoomTable, from: u64) -> Option<u64>
    requires ready { IsReadyFor (left_from from room.old.objects) room.old }
    requires ids { HaveIds room.old.objects }
    ensures turn { IsHatchedFrom ground.now from room.old result room.new }
    ensures later { IfSome result (λ next. from < next) }
{
    room.stands_in_order();
    let Some(object) = room.next_from(from) else {
        return None;
    };
    let next = object.id.checked_add(1);
    if !is_spawn(object) {
        return next;
    }
    let spawn = *object;
    hatch_at(ground, room, &spawn);
    next
}

// Whether an object is a spawn.
fn is_spawn(object: &Object) -> bool
    ensures { result ≡ is_spawn object.now }
{
    matches!(object.kind, Kind::Spawn)
}

// The turn of a spawn.
fn hatch_at(ground: &Terrain, room: &mut RoomTable, spawn: &Object)
    requires there { find_object spawn.now.id room.old.objects ≡ Some spawn.now }
    requires kind { spawn.now.kind ≡ Spawn }
    requires ready { IsReadyFor 1 room.old }
    ensures rule { table_part ground.now room.new
        ≡ hatched_as Spawn spawn.now (table_part ground.now room.old) }
    ensures keeps { KeepsUpTo 1 room.old room.new }
    ensures others { KeepsOthers spawn.now.id room.old room.new }
{
    room.stands_in_order();
    if spawn.timer > 1 {
        room.set(Object {
            timer: spawn.timer - 1,
            ..*spawn
        });
    } else if spawn.timer == 1 {
        hatch_on(ground, room, spawn);
    }
}

// A spawn's creep comes, where there is a tile for it.
fn hatch_on(ground: &Terrain, room: &mut RoomTable, spawn: &Object)
    requires there { find_object spawn.now.id room.old.objects ≡ Some spawn.now }
    requires kind { spawn.now.kind ≡ Spawn }
    requires ready { IsReadyFor 1 room.old }
    ensures rule { table_part ground.now room.new ≡ hatched_on spawn.now
        (tile_for (table_part ground.now room.old) spawn.now) (table_part ground.now room.old) }
    ensures keeps { KeepsUpTo 1 room.old room.new }
    ensures others { KeepsOthers spawn.now.id room.old room.new }
{
    room.stands_in_order();
    let Some((x, y)) = tile_for(ground, room, spawn) else {
        return;
    };
    room.set(Object {
        timer: 0,
        body: Body::new(),
        ..*spawn
    });
    room.insert_new(newborn(spawn, x, y));
}

// The first tile round a spawn, from the top clockwise, on which its creep may come.
fn tile_for(ground: &Terrain, room: &RoomTable, spawn: &Object) -> Option<(u8, u8)>
    ensures tile { result ≡ tile_for (table_part ground.now room.now) spawn.now }
    ensures inside { IfSome result (λ at. (at.0 < 50) × (at.1 < 50)) }
{
    let mut number = 1;
    while number <= 8 {
        let found = free_ahead(ground, room, spawn, number);
        if found.is_some() {
            return found;
        }
        number += 1;
    }
    None
}

// The tile in the direction of a number, where a spawn's creep may come onto it.
fn free_ahead(ground: &Terrain, room: &RoomTable, spawn: &Object, number: u64) -> Option<(u8, u8)>
    ensures tile { result ≡ free_towards (table_part ground.now room.now) spawn.now (direction_of number) }
    ensures inside { IfSome result (λ at. (at.0 < 50) × (at.1 < 50)) }
{
    let Some((x, y)) = ahead(spawn.x, spawn.y, number) else {
        return None;
    };
    if is_free(ground, room, spawn.owner, x, y) {
        Some((x, y))
    } else {
        None
    }
}

// Whether a player's creep may come onto a tile.
fn is_free(ground: &Terrain, room: &RoomTable, player: u32, x: u8, y: u8) -> bool
    requires column { x < 50 }
    requires row { y < 50 }
    ensures { result ≡ is_free_for_creep (table_part ground.now room.now) player (x, y) }
{
    // The objects rise by their ids, so that those of the room's part are those of its table.
    room.stands_in_order();
    is_open(ground, room, player, x, y) && room.at(x, y, Kind::Creep).is_none()
}

// The creep of a spawn on a tile, before it has an id.
fn newborn(spawn: &Object, x: u8, y: u8) -> Object
    ensures { result ≡ newborn spawn.now (x, y) 0 }
{
    Object {
        id: 0,
        kind: Kind::Creep,
        x,
        y,
        owner: spawn.owner,
        hits: hits_max(Kind::Creep, &spawn.body),
        energy: 0,
        timer: spawn.body.lifetime(),
        extra: 0,
        progress: 0,
        other: 0,
        other_ticks: 0,
        body: spawn.body,
    }
}
