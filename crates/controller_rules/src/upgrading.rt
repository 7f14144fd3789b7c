// Controllers that creeps upgrade.
ghost use Rattle.std.specs.Prelude.{◌≡◌, ◌<◌, ◌≤◌, ◌-◌, ℕ, List, Some, IfSome};
ghost use Rattle.game_tables.specs.Levels.{total_for_next};
ghost use Rattle.room_terrain.specs.declared.terrain.Ground.{Ground};
ghost use Rattle.world_rules.specs.RoomParts.{table_part};
ghost use Rattle.world_rules.specs.Claims.{points_gained, progressed, refreshed, risen, upgraded, work_taken};
ghost use Rattle.world_rules.specs.Claims.{worked_on};
ghost use Rattle.room_rules.specs.Calls.{IsReady, Keeps, KeepsTallies};

use action_checks::parties;
use game_tables::{Action, LAST_LEVEL, Part, total_for_next};
use intent_book::Intent;
use object_store::{Object, RoomTable};
use upkeep_rules::full_time;

/// Rules an entry to upgrade a controller, and says how many points its player gains: where it takes effect,
/// 1 for each live WORK part goes from the load into the controller, as far as the creep carries it, and as
/// one of the last level takes it. Below the last level it goes into progress. Where that reaches the total,
/// the level rises, and the time is half of the new level's; else it rises by 100, up to what the level has.
/// Else nothing is done.
pub fn upgrade(room: &mut RoomTable, intent: &Intent) -> u32
    requires ready { IsReady room.old }
    ensures rule { (grounds : List Ground)
        → table_part grounds room.new ≡ upgraded intent.now (table_part grounds room.old) }
    ensures points { (grounds : List Ground)
        → result ≡ points_gained intent.now (table_part grounds room.old) }
    ensures tallies { KeepsTallies room.old room.new }
    ensures keeps { Keeps room.old room.new }
{
    let Some((creep, controller)) = parties(Action::Upgrade, room, intent) else {
        return 0;
    };
    let amount = work_taken(&creep, &controller);
    room.set(Object {
        energy: creep.energy - u64::from(amount),
        ..creep
    });
    room.set(worked_on(amount, &controller));
    amount
}

// The most that all creeps of a tick put into a controller of the last level.
const MOST_AT_LAST: u32 = 15;

// What a creep puts into a controller.
fn work_taken(creep: &Object, controller: &Object) -> u32
    ensures taken { result ≡ work_taken creep.now controller.now }
    ensures most { result ≤ 50 }
    ensures paid { result ≤ creep.now.energy }
{
    let parts = creep.body.live(Part::Work, creep.hits);
    let most = u64::from(parts).min(creep.energy) as u32;
    if controller.extra == u32::from(LAST_LEVEL) {
        most.min(MOST_AT_LAST.saturating_sub(controller.other_ticks))
    } else {
        most
    }
}

// A controller into which an amount was put.
fn worked_on(amount: u32, controller: &Object) -> Object
    requires { amount ≤ 50 }
    ensures { result ≡ worked_on amount controller.now }
{
    let summed = Object {
        other_ticks: controller.other_ticks.saturating_add(amount),
        ..*controller
    };
    match next_total(controller.extra) {
        Some(total) => progressed(total, amount, &summed),
        None => refreshed(u64::from(amount), &summed),
    }
}

// The progress at which a controller of the level reaches the next, where there is one. A creep alone can't
// put in as much.
fn next_total(level: u32) -> Option<u32>
    ensures total { result ≡ total_for_next level }
    ensures next { IfSome result (λ total. (level < 8) × (50 < total)) }
{
    match u8::try_from(level) {
        Ok(level) => total_for_next(level),
        Err(_) => None,
    }
}

// A controller with an amount more of progress, where the next level is reached at this total.
fn progressed(total: u32, amount: u32, controller: &Object) -> Object
    requires few { amount ≤ 50 }
    requires many { 50 < total }
    requires level { controller.now.extra < 8 }
    ensures { result ≡ progressed (Some total) amount controller.now }
{
    let (total, amount) = (u64::from(total), u64::from(amount));
    if controller.progress < total - amount {
        let more = Object {
            progress: controller.progress + amount,
            ..*controller
        };
        refreshed(amount, &more)
    } else {
        risen(controller.progress - (total - amount), controller)
    }
}

// A controller of the next level, with this progress above the total.
fn risen(above: u64, controller: &Object) -> Object
    requires level { controller.now.extra < 8 }
    ensures { (total progress : ℕ) → above ≡ progress - total
        → result ≡ risen total (record controller.now { progress = progress }) }
{
    let level = controller.extra + 1;
    let progress = if level == u32::from(LAST_LEVEL) {
        0
    } else {
        above
    };
    Object {
        extra: level,
        progress,
        timer: full_time(level) / 2,
        ..*controller
    }
}

// A controller with 100 ticks more, where something was put into it.
fn refreshed(amount: u64, controller: &Object) -> Object
    ensures { result ≡ refreshed amount controller.now }
{
    if amount == 0 {
        return *controller;
    }
    let longer = controller.timer.saturating_add(100);
    Object {
        timer: longer.min(full_time(controller.extra)),
        ..*controller
    }
}
