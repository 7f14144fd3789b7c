// Attacks on all around.
ghost use Rattle.std.specs.Prelude.{◌≡◌, ◌^◌, ◌<◌, ◌≤◌, List};
ghost use Rattle.std.specs.List.{AllByRecursion};
ghost use Rattle.game_tables.specs.Bodies.{live_count};
ghost use Rattle.game_tables.specs.declared.kind.Part.TheVariants.{RangedAttack};
ghost use Rattle.room_terrain.specs.declared.terrain.Ground.{Ground};
ghost use Rattle.room_table.specs.Tables.{HasId, IsOnTile, is_on};
ghost use Rattle.world_rules.specs.RoomParts.{table_part};
ghost use Rattle.world_rules.specs.Fights.{is_struck, mass_attacked, mass_strength, range_between};
ghost use Rattle.room_rules.specs.Calls.{IsHarmedBy, IsReady, Keeps};
ghost use Rattle.room_rules.specs.inner.Damage.{IsDamaged, to_one};
ghost use Rattle.creep_combat.specs.inner.Damage.{damage_where, is_in_row, mass_damage};

use action_checks::acting;
use game_tables::{Action, Part, is_building, is_creep};
use intent_book::Intent;
use object_store::{Object, RoomTable};

/// Rules an entry to attack all around: where it takes effect, each creep and building of another player at
/// range 1, 2 or 3 gets 10, 4 or 1 damage for each live RANGED_ATTACK part, and one on the same tile 10 too.
/// Else nothing is done. Either way the room stays as it is. It looks at the tiles within the range alone.
pub fn mass_attack(room: &mut RoomTable, intent: &Intent)
    requires ready { IsReady room.old }
    ensures rule { (grounds : List Ground) → table_part grounds room.new ≡ table_part grounds room.old }
    ensures harm { (grounds : List Ground) → IsHarmedBy
        (mass_attacked intent.now (table_part grounds room.old)) room.old room.new }
    ensures keeps { Keeps room.old room.new }
{
    // The objects rise by their ids, and no sum of what was done to them passes its most.
    room.stands_in_order();
    room.ids_fit();
    let Some(creep) = acting(Action::RangedMassAttack, room, intent) else {
        return;
    };
    let live = creep.body.live(Part::RangedAttack, creep.hits);
    strike_all(room, &creep, live);
}

// How far a mass attack reaches.
const REACH: u8 = 3;

// The columns and the rows of a room.
const SIDE: u8 = 50;

// Strikes what stands within the reach, with so many live parts.
fn strike_all(room: &mut RoomTable, creep: &Object, live: u32)
    requires live { live ≡ live_count RangedAttack creep.now.hits creep.now.body }
    requires few { live ≤ 50 }
    requires tile { IsOnTile creep.now }
    requires tiles { AllByRecursion IsOnTile room.old.objects }
    requires ids { AllByRecursion (λ object. object.id < 2 ^ 64) room.old.objects }
    ensures { IsDamaged (mass_damage creep.now) room.old room.new }
{
    room.stands_in_order();
    for y in creep.y.saturating_sub(REACH)..(creep.y + REACH + 1).min(SIDE) {
        strike_row(room, creep, live, y);
    }
}

// Strikes what stands on the tiles of a row within the reach.
fn strike_row(room: &mut RoomTable, creep: &Object, live: u32, y: u8)
    requires live { live ≡ live_count RangedAttack creep.now.hits creep.now.body }
    requires few { live ≤ 50 }
    requires tile { IsOnTile creep.now }
    requires tiles { AllByRecursion IsOnTile room.old.objects }
    requires ids { AllByRecursion (λ object. object.id < 2 ^ 64) room.old.objects }
    ensures { IsDamaged (damage_where (is_in_row y) creep.now) room.old room.new }
{
    room.stands_in_order();
    for x in creep.x.saturating_sub(REACH)..(creep.x + REACH + 1).min(SIDE) {
        strike_tile(room, creep, live, x, y);
    }
}

// Strikes what stands on a tile, in rising id.
fn strike_tile(room: &mut RoomTable, creep: &Object, live: u32, x: u8, y: u8)
    requires live { live ≡ live_count RangedAttack creep.now.hits creep.now.body }
    requires few { live ≤ 50 }
    requires ids { AllByRecursion (λ object. object.id < 2 ^ 64) room.old.objects }
    ensures { IsDamaged (damage_where (is_on x y) creep.now) room.old room.new }
{
    room.stands_in_order();
    let mut from = 0;
    while let Some(object) = room.next_on(x, y, from) {
        let id = object.id;
        let damage = mass_damage(creep, live, object);
        strike(room, id, damage);
        if id == u64::MAX {
            return;
        }
        from = id + 1;
    }
}

// Adds damage to an object, where there is any.
fn strike(room: &mut RoomTable, id: u64, damage: u32)
    requires { HasId id room.old.objects }
    ensures { IsDamaged (to_one id damage) room.old room.new }
{
    room.stands_in_order();
    if damage > 0 {
        room.add_damage(id, damage);
    }
}

// What a mass attack of a creep with so many live parts does to an object.
fn mass_damage(creep: &Object, live: u32, object: &Object) -> u32
    requires live { live ≡ live_count RangedAttack creep.now.hits creep.now.body }
    requires few { live ≤ 50 }
    ensures { result ≡ mass_damage creep.now object.now }
{
    if is_struck(creep, object) {
        mass_strength(range_between(creep, object)) * live
    } else {
        0
    }
}

// Whether a mass attack of a creep strikes an object.
fn is_struck(creep: &Object, object: &Object) -> bool
    ensures { result ≡ is_struck creep.now object.now }
{
    (is_creep(object.kind) || is_building(object.kind))
        && object.owner != 0
        && object.owner != creep.owner
        && range_between(creep, object) <= REACH
}

// How far from each other two objects are.
fn range_between(one: &Object, other: &Object) -> u8
    ensures { result ≡ range_between one.now other.now }
{
    one.x.abs_diff(other.x).max(one.y.abs_diff(other.y))
}

// What each live RANGED_ATTACK part does at a range.
fn mass_strength(range: u8) -> u32
    ensures same { result ≡ mass_strength range }
    ensures most { result ≤ 10 }
{
    match range {
        0 | 1 => 10,
        2 => 4,
        _ => 1,
    }
}
