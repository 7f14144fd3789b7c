// The checks of an action in a rule.
ghost use Rattle.std.specs.Prelude.{◌≡◌, List, nat_lt, option_map};
ghost use Rattle.room_terrain.specs.declared.terrain.Ground.{Ground};
ghost use Rattle.room_table.specs.Tables.{find_object};
ghost use Rattle.world_rules.specs.World.{shown};
ghost use Rattle.world_rules.specs.RoomParts.{table_part};
ghost use Rattle.world_rules.specs.Checks.{acting, both_of, holds_of, may_take_effect, parties, standing_at};

use crate::checks::{Scene, all_hold};
use game_tables::Action;
use intent_book::Intent;
use object_store::{Object, RoomTable, Standing};

/// Whether the rule of an action does something with an entry: its checks hold in the room, and the actor
/// has hits.
pub fn takes_effect(action: Action, room: &RoomTable, intent: &Intent) -> bool
    ensures { (grounds : List Ground)
        → result ≡ may_take_effect action intent.now (table_part grounds room.now) }
{
    // The objects rise by their ids, so that those of the room's part are those of its table.
    room.stands_in_order();
    let scene = Scene {
        player: intent.player,
        actor: standing(room, intent.actor),
        target: standing(room, intent.target),
        around: Some(room),
        amount: Some(intent.amount),
        least: 1,
        claims: 0,
        level: 1,
    };
    all_hold(action, &scene) && has_hits(scene.actor)
}

/// The creep of an entry, as it stands in the room, where the rule of the action does something with it.
pub fn acting(action: Action, room: &RoomTable, intent: &Intent) -> Option<Object>
    ensures { (grounds : List Ground)
        → result ≡ acting action intent.now (table_part grounds room.now) }
{
    if takes_effect(action, room, intent) {
        room.get(intent.actor).copied()
    } else {
        None
    }
}

/// The creep and the target of an entry, as they stand in the room, where the rule of the action does
/// something with it.
pub fn parties(action: Action, room: &RoomTable, intent: &Intent) -> Option<(Object, Object)>
    ensures { (grounds : List Ground)
        → result ≡ parties action intent.now (table_part grounds room.now) }
{
    if takes_effect(action, room, intent) {
        both_of(room.get(intent.actor), room.get(intent.target))
    } else {
        None
    }
}

// Two objects, where both are there.
fn both_of(creep: Option<&Object>, target: Option<&Object>) -> Option<(Object, Object)>
    ensures { result ≡ both_of (option_map (λ object. object.now) creep.entry)
        (option_map (λ object. object.now) target.entry) }
{
    Some((*creep?, *target?))
}

/// The object of an id in a room.
pub fn standing(room: &RoomTable, id: u64) -> Option<Standing<'_>>
    ensures part { (grounds : List Ground)
        → option_map shown result ≡ standing_at (table_part grounds room.now) id }
    ensures object { option_map (λ standing. standing.object.now) result ≡ find_object id room.now.objects }
{
    match room.get(id) {
        Some(object) => Some(Standing {
            room: room.index(),
            object,
        }),
        None => None,
    }
}

// Whether the object is there, and has hits.
fn has_hits(found: Option<Standing>) -> bool
    ensures { result ≡ holds_of (option_map shown found.entry) (λ object. nat_lt 0 object.hits) }
{
    match found {
        Some(standing) => standing.object.hits > 0,
        None => false,
    }
}
