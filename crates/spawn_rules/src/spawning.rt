// Creeps that spawns begin to make.
ghost use Rattle.std.specs.Prelude.{◌≡◌, ◌<◌, ◌≤◌, List, Some, length};
ghost use Rattle.std.specs.FinMap.{values};
ghost use Rattle.std.specs.List.{AllByRecursion};
ghost use Rattle.room_terrain.specs.declared.terrain.Ground.{Ground};
ghost use Rattle.room_table.specs.Tables.{IsOnTile};
ghost use Rattle.world_rules.specs.RoomParts.{table_part};
ghost use Rattle.world_rules.specs.Checks.{all_hold, standing_at};
ghost use Rattle.world_rules.specs.Spawns.{begun_with, creep_begun, paid, payers, spawn_checks, those_of};
ghost use Rattle.world_rules.specs.Steps.{by_object};
ghost use Rattle.std.specs.FinMap.{get};
ghost use Rattle.room_rules.specs.Calls.{IsReady, Keeps, KeepsTallies};
ghost use Rattle.spawn_rules.specs.inner.Paying.{HasThoseOf, IsPaidAt, is_one, unpaid};

use action_checks::{held_by, may_be_made, standing};
use game_tables::{Body, Kind};
use intent_book::Intent;
use object_store::{Object, RoomTable};

/// Rules an entry to make a creep: where its checks hold, the player's spawns of the room pay the body in
/// rising id, and what they don't hold his extensions; the spawn makes the creep for 3 ticks a part. Else
/// nothing is done.
pub fn spawn(room: &mut RoomTable, intent: &Intent)
    requires ready { IsReady room.old }
    ensures rule { (grounds : List Ground)
        → table_part grounds room.new ≡ creep_begun intent.now (table_part grounds room.old) }
    ensures tallies { KeepsTallies room.old room.new }
    ensures keeps { Keeps room.old room.new }
{
    // The objects rise by their ids, so that those of the room's part are those of its table.
    room.stands_in_order();
    if !may_begin(room, intent) {
        return;
    }
    pay(room, intent.player, intent.body.cost());
    begin(room, intent.actor, &intent.body);
}

// Whether the checks of a creep hold in the room.
fn may_begin(room: &RoomTable, intent: &Intent) -> bool
    ensures { (grounds : List Ground)
        → result ≡ all_hold (spawn_checks intent.now.player
        (standing_at (table_part grounds room.now) intent.now.actor)
        (values (table_part grounds room.now).objects) (Some intent.now.body)) }
{
    let held = held_by(room.objects(), intent.player, u64::from(u32::MAX)) as u32;
    may_be_made(
        intent.player,
        standing(room, intent.actor),
        held,
        Some(&intent.body),
    )
}

// A player's spawns pay in rising id, and then his extensions.
fn pay(room: &mut RoomTable, owner: u32, cost: u32)
    requires tiles { AllByRecursion IsOnTile room.old.objects }
    ensures rule { (grounds : List Ground)
        → table_part grounds room.new
        ≡ paid (payers owner room.old.objects) cost (table_part grounds room.old) }
    ensures has { HasThoseOf room.old room.new }
{
    let left = pay_all(room, Kind::Spawn, owner, u64::from(cost));
    pay_all(room, Kind::Extension, owner, left);
}

// A player's objects of a kind pay in rising id, as far as they hold it. Answers what is left to pay.
fn pay_all(room: &mut RoomTable, kind: Kind, owner: u32, cost: u64) -> u64
    requires tiles { AllByRecursion IsOnTile room.old.objects }
    ensures rule { (grounds : List Ground)
        → table_part grounds room.new
        ≡ paid (those_of kind owner room.old.objects) cost (table_part grounds room.old) }
    ensures left { (grounds : List Ground)
        → result ≡ unpaid (those_of kind owner room.old.objects) cost (table_part grounds room.old) }
    ensures has { HasThoseOf room.old room.new }
{
    let mut left = cost;
    let mut place = 0;
    while place < room.len() {
        left = pay_at(room, place, kind, owner, left);
        place += 1;
    }
    left
}

// The object at a place pays, where it is of the kind and the owner. Answers what is left to pay.
fn pay_at(room: &mut RoomTable, place: u32, kind: Kind, owner: u32, cost: u64) -> u64
    requires inside { place < length room.old.objects }
    requires tiles { AllByRecursion IsOnTile room.old.objects }
    ensures paid { IsPaidAt kind owner cost place room.old result room.new }
{
    room.stands_in_order();
    let Some(object) = room.nth(place) else {
        unreachable!()
    };
    if !is_one(object, kind, owner) {
        return cost;
    }
    let payer = *object;
    let amount = payer.energy.min(cost);
    room.set(Object {
        energy: payer.energy - amount,
        ..payer
    });
    cost - amount
}

// Whether an object is of a kind, and of an owner.
fn is_one(object: &Object, kind: Kind, owner: u32) -> bool
    ensures { result ≡ is_one kind owner object.now }
{
    object.kind.number() == kind.number() && object.owner == owner
}

// The spawn of an id makes a creep of this body.
fn begin(room: &mut RoomTable, id: u64, body: &Body)
    requires tiles { AllByRecursion IsOnTile room.old.objects }
    requires parts { length body.now ≤ 50 }
    ensures rule { (grounds : List Ground)
        → table_part grounds room.new
        ≡ by_object (begun_with body.now) (table_part grounds room.old)
        (get (table_part grounds room.old).objects id) }
    ensures has { HasThoseOf room.old room.new }
{
    room.stands_in_order();
    let Some(spawn) = room.get(id) else {
        return;
    };
    let busy = Object {
        body: *body,
        timer: 3 * body.len() as u32,
        ..*spawn
    };
    room.set(busy);
}
