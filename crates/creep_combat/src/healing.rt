// What creeps heal.
ghost use Rattle.std.specs.Prelude.{◌≡◌, ◌*◌, ◌≤◌, List};
ghost use Rattle.game_tables.specs.Bodies.{live_count};
ghost use Rattle.game_tables.specs.declared.kind.Part.TheVariants.{Heal};
ghost use Rattle.room_terrain.specs.declared.terrain.Ground.{Ground};
ghost use Rattle.world_rules.specs.RoomParts.{table_part};
ghost use Rattle.world_rules.specs.Fights.{harm_by_parties, healed_by};
ghost use Rattle.room_rules.specs.Calls.{IsHarmedBy, IsReady, Keeps};

use action_checks::parties;
use game_tables::{Action, Part};
use intent_book::Intent;
use object_store::{Object, RoomTable};

/// Rules an entry to heal: where it takes effect, 12 for each live HEAL part are added to the healing of the
/// target. Else nothing is done. Either way the room stays as it is.
pub fn heal(room: &mut RoomTable, intent: &Intent)
    requires ready { IsReady room.old }
    ensures rule { (grounds : List Ground) → table_part grounds room.new ≡ table_part grounds room.old }
    ensures harm { (grounds : List Ground)
        → IsHarmedBy (harm_by_parties Action.Heal (healed_by 12) intent.now (table_part grounds room.old))
        room.old room.new }
    ensures keeps { Keeps room.old room.new }
{
    // No sum of what was done to the objects passes its most.
    room.stands_in_order();
    let Some((creep, _)) = parties(Action::Heal, room, intent) else {
        return;
    };
    room.add_healing(intent.target, healing(&creep, 12));
}

/// The same from a distance: 4 for each live HEAL part.
pub fn ranged_heal(room: &mut RoomTable, intent: &Intent)
    requires ready { IsReady room.old }
    ensures rule { (grounds : List Ground) → table_part grounds room.new ≡ table_part grounds room.old }
    ensures harm { (grounds : List Ground) → IsHarmedBy
        (harm_by_parties Action.RangedHeal (healed_by 4) intent.now (table_part grounds room.old))
        room.old room.new }
    ensures keeps { Keeps room.old room.new }
{
    // No sum of what was done to the objects passes its most.
    room.stands_in_order();
    let Some((creep, _)) = parties(Action::RangedHeal, room, intent) else {
        return;
    };
    room.add_healing(intent.target, healing(&creep, 4));
}

// What a creep heals, so much with each live HEAL part.
fn healing(creep: &Object, each: u32) -> u32
    requires { each ≤ 12 }
    ensures { result ≡ each * live_count Heal creep.now.hits creep.now.body }
{
    each * creep.body.live(Part::Heal, creep.hits)
}
