// Attacks on one target.
ghost use Rattle.std.specs.Prelude.{◌≡◌, List};
ghost use Rattle.room_terrain.specs.declared.terrain.Ground.{Ground};
ghost use Rattle.world_rules.specs.RoomParts.{table_part};
ghost use Rattle.world_rules.specs.Fights.{attacked_by, harm_by_parties, shot_by, strength};
ghost use Rattle.room_rules.specs.Calls.{IsHarmedBy, IsReady, Keeps};

use action_checks::parties;
use game_tables::{Action, Part, is_creep};
use intent_book::Intent;
use object_store::{Object, RoomTable};

/// Rules an entry to attack: where it takes effect, 30 for each live ATTACK part are added to the damage of
/// the target, and a target that is a creep strikes back with its own. Else nothing is done. Either way the
/// room stays as it is.
pub fn attack(room: &mut RoomTable, intent: &Intent)
    requires ready { IsReady room.old }
    ensures rule { (grounds : List Ground) → table_part grounds room.new ≡ table_part grounds room.old }
    ensures harm { (grounds : List Ground)
        → IsHarmedBy (harm_by_parties Action.Attack attacked_by intent.now (table_part grounds room.old))
        room.old room.new }
    ensures keeps { Keeps room.old room.new }
{
    // No sum of what was done to the objects passes its most.
    room.stands_in_order();
    let Some((creep, target)) = parties(Action::Attack, room, intent) else {
        return;
    };
    room.add_damage(intent.target, strength(&creep));
    if is_creep(target.kind) {
        room.add_damage(intent.actor, strength(&target));
    }
}

/// Rules an entry to attack from a distance: where it takes effect, 10 for each live RANGED_ATTACK part are
/// added to the damage of the target. Else nothing is done. Either way the room stays as it is.
pub fn ranged_attack(room: &mut RoomTable, intent: &Intent)
    requires ready { IsReady room.old }
    ensures rule { (grounds : List Ground) → table_part grounds room.new ≡ table_part grounds room.old }
    ensures harm { (grounds : List Ground)
        → IsHarmedBy (harm_by_parties Action.RangedAttack shot_by intent.now (table_part grounds room.old))
        room.old room.new }
    ensures keeps { Keeps room.old room.new }
{
    // No sum of what was done to the objects passes its most.
    room.stands_in_order();
    let Some((creep, _)) = parties(Action::RangedAttack, room, intent) else {
        return;
    };
    room.add_damage(
        intent.target,
        10 * creep.body.live(Part::RangedAttack, creep.hits),
    );
}

// What a creep does with its live ATTACK parts.
fn strength(creep: &Object) -> u32
    ensures { result ≡ strength creep.now }
{
    30 * creep.body.live(Part::Attack, creep.hits)
}
