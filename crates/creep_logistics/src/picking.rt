// Piles that creeps pick up.
ghost use Rattle.std.specs.Prelude.{◌≡◌, ◌≢◌, ℕ, ◌≤◌, List, Some};
ghost use Rattle.room_terrain.specs.declared.terrain.Ground.{Ground};
ghost use Rattle.room_table.specs.Tables.{HasId, find_object};
ghost use Rattle.world_rules.specs.RoomParts.{table_part};
ghost use Rattle.world_rules.specs.Loads.{picked_up, taken_from};
ghost use Rattle.room_rules.specs.Calls.{IsReady, Keeps, KeepsTallies};

use crate::amounts::free_in;
use action_checks::parties;
use game_tables::Action;
use intent_book::Intent;
use object_store::{Object, RoomTable};

/// Rules an entry to pick up: where it takes effect, the energy of the pile goes to the creep, as far as
/// that has room for it. A pile of which nothing is left is gone. Else nothing is done.
pub fn pickup(room: &mut RoomTable, intent: &Intent)
    requires ready { IsReady room.old }
    ensures rule { (grounds : List Ground)
        → table_part grounds room.new ≡ picked_up intent.now (table_part grounds room.old) }
    ensures tallies { KeepsTallies room.old room.new }
    ensures keeps { Keeps room.old room.new }
{
    let Some((creep, pile)) = parties(Action::Pickup, room, intent) else {
        return;
    };
    let amount = pile.energy.min(free_in(room, &creep));
    take_from(room, pile, amount);
    room.set(Object {
        energy: creep.energy + amount,
        ..creep
    });
}

// Takes an amount of energy from a pile of the room, which is gone once nothing is left of it.
fn take_from(room: &mut RoomTable, pile: Object, amount: u64)
    requires there { find_object pile.id room.old.objects ≡ Some pile }
    requires held { amount ≤ pile.energy }
    requires ready { IsReady room.old }
    ensures rule { (grounds : List Ground)
        → table_part grounds room.new ≡ taken_from pile amount (table_part grounds room.old) }
    ensures tallies { KeepsTallies room.old room.new }
    ensures keeps { Keeps room.old room.new }
    ensures others { (id : ℕ) → id ≢ pile.id → HasId id room.old.objects → HasId id room.new.objects }
{
    if amount == pile.energy {
        room.remove(pile.id);
    } else {
        room.set(Object {
            energy: pile.energy - amount,
            ..pile
        });
    }
}
