// Energy that creeps hand over and take.
ghost use Rattle.std.specs.Prelude.{◌≡◌, ◌+◌, ◌^◌, ◌<◌, ◌≤◌, List, Some};
ghost use Rattle.room_terrain.specs.declared.terrain.Ground.{Ground};
ghost use Rattle.room_table.specs.Tables.{find_object};
ghost use Rattle.world_rules.specs.RoomParts.{table_part};
ghost use Rattle.world_rules.specs.Loads.{handed_over, transferred, withdrawn};
ghost use Rattle.room_rules.specs.Calls.{IsReady, Keeps, KeepsTallies};

use crate::amounts::{free_in, wanted};
use action_checks::parties;
use game_tables::Action;
use intent_book::Intent;
use object_store::{Object, RoomTable};

/// Rules an entry to transfer: where it takes effect, the wanted amount of the creep's load, or all where
/// it is 0, goes to the target, as far as that has room for it. Else nothing is done.
pub fn transfer(room: &mut RoomTable, intent: &Intent)
    requires ready { IsReady room.old }
    ensures rule { (grounds : List Ground)
        → table_part grounds room.new ≡ transferred intent.now (table_part grounds room.old) }
    ensures tallies { KeepsTallies room.old room.new }
    ensures keeps { Keeps room.old room.new }
{
    let Some((creep, target)) = parties(Action::Transfer, room, intent) else {
        return;
    };
    let amount = wanted(intent.amount, creep.energy).min(free_in(room, &target));
    hand_over(room, amount, creep, target);
}

/// Rules an entry to withdraw: where it takes effect, the wanted amount of what the target holds, or all
/// where it is 0, goes to the creep, as far as that has room for it. Else nothing is done.
pub fn withdraw(room: &mut RoomTable, intent: &Intent)
    requires ready { IsReady room.old }
    ensures rule { (grounds : List Ground)
        → table_part grounds room.new ≡ withdrawn intent.now (table_part grounds room.old) }
    ensures tallies { KeepsTallies room.old room.new }
    ensures keeps { Keeps room.old room.new }
{
    let Some((creep, store)) = parties(Action::Withdraw, room, intent) else {
        return;
    };
    let amount = wanted(intent.amount, store.energy).min(free_in(room, &creep));
    hand_over(room, amount, store, creep);
}

// Hands an amount of energy over from one object of the room to another.
fn hand_over(room: &mut RoomTable, amount: u64, giver: Object, taker: Object)
    requires giver { find_object giver.id room.old.objects ≡ Some giver }
    requires taker { find_object taker.id room.old.objects ≡ Some taker }
    requires held { amount ≤ giver.energy }
    requires fits { taker.energy + amount < 2 ^ 64 }
    requires ready { IsReady room.old }
    ensures rule { (grounds : List Ground)
        → table_part grounds room.new ≡ handed_over amount giver taker (table_part grounds room.old) }
    ensures tallies { KeepsTallies room.old room.new }
    ensures keeps { Keeps room.old room.new }
{
    room.set(Object {
        energy: giver.energy - amount,
        ..giver
    });
    room.set(Object {
        energy: taker.energy + amount,
        ..taker
    });
}
