// Controllers that creeps claim, reserve and attack.
ghost use Rattle.std.specs.Prelude.{◌≡◌, ◌≤◌, List};
ghost use Rattle.room_terrain.specs.declared.terrain.Ground.{Ground};
ghost use Rattle.world_rules.specs.RoomParts.{table_part};
ghost use Rattle.world_rules.specs.Claims.{claimed, claimed_for, controller_attacked, controller_hurt};
ghost use Rattle.world_rules.specs.Claims.{live_claim, reserved, ticks_reserved};
ghost use Rattle.room_rules.specs.Calls.{IsReady, Keeps, KeepsTallies};

use action_checks::parties;
use game_tables::{Action, Kind, Part, most_other_ticks};
use intent_book::Intent;
use object_store::{Object, RoomTable};
use upkeep_rules::full_time;

/// Rules an entry to claim a controller: where it takes effect, the controller is the player's, of the first
/// level with all its time, and not reserved any more. Else nothing is done.
pub fn claim(room: &mut RoomTable, intent: &Intent)
    requires ready { IsReady room.old }
    ensures rule { (grounds : List Ground)
        → table_part grounds room.new ≡ claimed intent.now (table_part grounds room.old) }
    ensures tallies { KeepsTallies room.old room.new }
    ensures keeps { Keeps room.old room.new }
{
    let Some((_creep, controller)) = parties(Action::ClaimController, room, intent) else {
        return;
    };
    room.set(claimed_for(intent.player, &controller));
}

/// Rules an entry to reserve a controller: where it takes effect, the reservation is the player's, and has 1
/// tick more for each live CLAIM part, up to 5,000; a new one begins with 1. Else nothing is done.
pub fn reserve(room: &mut RoomTable, intent: &Intent)
    requires ready { IsReady room.old }
    ensures rule { (grounds : List Ground)
        → table_part grounds room.new ≡ reserved intent.now (table_part grounds room.old) }
    ensures tallies { KeepsTallies room.old room.new }
    ensures keeps { Keeps room.old room.new }
{
    let Some((creep, controller)) = parties(Action::Reserve, room, intent) else {
        return;
    };
    room.set(Object {
        other: intent.player,
        other_ticks: ticks_reserved(&creep, &controller),
        ..controller
    });
}

/// Rules an entry to attack a controller: where it takes effect, one that has an owner loses 300 ticks of
/// its time for each live CLAIM part, and another 1 of its reservation, down to 1. Else nothing is done.
pub fn attack_controller(room: &mut RoomTable, intent: &Intent)
    requires ready { IsReady room.old }
    ensures rule { (grounds : List Ground)
        → table_part grounds room.new ≡ controller_attacked intent.now (table_part grounds room.old) }
    ensures tallies { KeepsTallies room.old room.new }
    ensures keeps { Keeps room.old room.new }
{
    let Some((creep, controller)) = parties(Action::AttackController, room, intent) else {
        return;
    };
    room.set(controller_hurt(&creep, &controller));
}

// A controller that a player claimed.
fn claimed_for(player: u32, controller: &Object) -> Object
    ensures { result ≡ claimed_for player controller.now }
{
    Object {
        owner: player,
        extra: 1,
        progress: 0,
        timer: full_time(1),
        other: 0,
        other_ticks: 0,
        ..*controller
    }
}

// The ticks of a reservation with what a creep adds.
fn ticks_reserved(creep: &Object, controller: &Object) -> u32
    ensures { result ≡ ticks_reserved creep.now controller.now }
{
    let before = if controller.other == 0 {
        1
    } else {
        controller.other_ticks
    };
    before
        .saturating_add(live_claim(creep))
        .min(most_other_ticks(Kind::Controller))
}

// A controller that a creep attacked.
fn controller_hurt(creep: &Object, controller: &Object) -> Object
    ensures { result ≡ controller_hurt creep.now controller.now }
{
    let parts = live_claim(creep);
    if controller.owner == 0 {
        Object {
            other_ticks: controller.other_ticks.saturating_sub(parts).max(1),
            ..*controller
        }
    } else {
        Object {
            timer: controller.timer.saturating_sub(300 * parts).max(1),
            ..*controller
        }
    }
}

// The live CLAIM parts of a creep.
fn live_claim(creep: &Object) -> u32
    ensures parts { result ≡ live_claim creep.now }
    ensures most { result ≤ 50 }
{
    creep.body.live(Part::Claim, creep.hits)
}
