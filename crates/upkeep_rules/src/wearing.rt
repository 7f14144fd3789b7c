// The steps of upkeep in which what an object held may fall on its tile.
ghost use Rattle.std.specs.Prelude.{◌≡◌, ◌<◌, ◌≤◌, ◌+◌, true, IsTrue, List, Some, length, slice_get};
ghost use Rattle.std.specs.List.{count_by};
ghost use Rattle.room_terrain.specs.declared.terrain.Ground.{Ground};
ghost use Rattle.game_tables.specs.declared.kind.Kind.TheVariants.{Creep};
ghost use Rattle.room_table.specs.declared.object.Object.{Object};
ghost use Rattle.room_table.specs.Tables.{IsOnTile, IsRising};
ghost use Rattle.room_table.specs.Tallies.{no_tally};
ghost use Rattle.upkeep_rules.specs.declared.wearing.Wear.TheVariants.{Strike, Unload, Age, Weather};
ghost use Rattle.world_rules.specs.RoomParts.{table_part};
ghost use Rattle.world_rules.specs.RuleBook.{Sums};
ghost use Rattle.world_rules.specs.Steps.{over_objects};
ghost use Rattle.world_rules.specs.Upkeep.{decays, decay_hits, hits_left, weathered};
ghost use Rattle.room_rules.specs.Calls.{AreSumsOf, IsReady, IsReadyFor, KeepsUpTo};
ghost use Rattle.upkeep_rules.specs.inner.Worn.{budget, change, concerns, left_of, may_drop, place_behind};
ghost use Rattle.upkeep_rules.specs.inner.Worn.{stays, sums_of, tasks, worn, HasFallen, IsTurn};

use falling_energy::fall;
use game_tables::{Kind, full_timer, hits_max, is_building, is_creep};
use object_store::{Object, RoomTable, Tally};

/// A step in which an object may leave energy on its tile.
#[derive(Clone, Copy)]
pub(crate) enum Wear {
    /// Creeps and buildings have the hits that the tick leaves them, or go.
    Strike,
    /// Creeps drop what their live parts do not hold.
    Unload,
    /// Creeps age, or go.
    Age,
    /// Containers and roads decay, or go, in a room that somebody owns or in another.
    Weather(bool),
}

/// The room after a step: each object that stands as it begins has its turn, in rising id. Where one leaves
/// energy, that falls on its tile before the next turn.
pub(crate) fn wear_all(room: &mut RoomTable, step: Wear)
    requires ready { IsReadyFor (budget step 0 room.old) room.old }
    ensures rule { (grounds : List Ground) (sums : Sums) → AreSumsOf sums room.old
        → table_part grounds room.new ≡ over_objects (change step sums) (table_part grounds room.old) }
    ensures keeps { KeepsUpTo (budget step 0 room.old) room.old room.new }
    ensures ready { IsReadyFor (count_by (may_drop step) room.new.objects) room.new }
    ensures left { room.new.next + count_by (may_drop step) room.new.objects
        ≤ room.old.next + budget step 0 room.old }
{
    // The objects rise by their ids, as those of the room's part do.
    room.stands_in_order();
    let mut place = 0;
    while place < room.len() {
        place = wear_at(room, place, step);
    }
}

// The turn of the object at a place; answers the place of the next object that stood before. An object that
// stays as it is is only looked at: what holds a changed object stands apart, since the room of it is cleared
// at each call.
fn wear_at(room: &mut RoomTable, place: u32, step: Wear) -> u32
    requires inside { place < length room.old.objects }
    requires ready { IsReadyFor (budget step place room.old) room.old }
    ensures turn { IsTurn step place room.old result room.new }
    ensures fewer { tasks step result room.new < tasks step place room.old }
{
    room.stands_in_order();
    let Some(object) = room.nth(place) else {
        unreachable!()
    };
    if !concerns(step, object.kind) {
        return place + 1;
    }
    if rests(step, object, room.nth_tally(place)) {
        return place + 1;
    }
    wear_one(room, place, step)
}

// The turn of an object that the step concerns.
fn wear_one(room: &mut RoomTable, place: u32, step: Wear) -> u32
    requires inside { place < length room.old.objects }
    requires ready { IsReadyFor (budget step place room.old) room.old }
    requires concerned { (object : Object) → slice_get room.old.objects place ≡ Some object
        → concerns step object.kind ≡ true }
    ensures turn { IsTurn step place room.old result room.new }
    ensures fewer { tasks step result room.new < tasks step place room.old }
{
    room.stands_in_order();
    let Some(object) = room.nth(place) else {
        unreachable!()
    };
    let id = object.id;
    let tally = room.nth_tally(place);
    match worn(step, object, tally) {
        Outcome::Stays => place + 1,
        Outcome::Changes(left) => {
            room.set(left);
            place + 1
        }
        Outcome::Drops(left, amount) => {
            room.set(left);
            fall_from(room, &left, amount);
            place_behind(room, place + 1, id)
        }
        Outcome::Goes(gone) => {
            room.remove(id);
            fall_all(room, &gone);
            place_behind(room, place, id)
        }
    }
}

// Lets all that an object held fall on its tile.
fn fall_all(room: &mut RoomTable, gone: &Object)
    requires tile { IsOnTile gone.now }
    requires ready { 0 < gone.now.energy → IsReady room.old }
    ensures { HasFallen gone.now gone.now.energy room.old room.new }
{
    fall_from(room, gone, gone.energy);
}

// Lets energy fall on the tile of an object, if there is any.
fn fall_from(room: &mut RoomTable, object: &Object, amount: u64)
    requires tile { IsOnTile object.now }
    requires ready { 0 < amount → IsReady room.old }
    ensures { HasFallen object.now amount room.old room.new }
{
    if amount > 0 {
        fall(room, object.x, object.y, amount);
    }
}

// The place itself, or the next one where an object of no greater id stands there.
fn place_behind(room: &RoomTable, place: u32, id: u64) -> u32
    ensures place { result ≡ place_behind id place room.now.objects }
    ensures rising { IsRising room.now.objects }
{
    room.stands_in_order();
    match room.nth(place) {
        Some(object) if object.id <= id => place + 1,
        _ => place,
    }
}

// What a step makes of an object.
#[derive(Clone, Copy)]
enum Outcome {
    Stays,
    Changes(Object),
    // It stands with less energy, and so much falls.
    Drops(Object, u64),
    // It goes, and its energy falls.
    Goes(Object),
}

// What a step makes of an object that it concerns.
fn worn(step: Wear, object: &Object, tally: Tally) -> Outcome
    ensures { left_of object.now result ≡ worn step tally object.now }
{
    match step {
        Wear::Strike => strike(object, tally),
        Wear::Unload => unload(object),
        Wear::Age => age(object),
        Wear::Weather(in_owned) => weather(object, in_owned),
    }
}

// Whether an object that a step concerns stays as it is.
fn rests(step: Wear, object: &Object, tally: Tally) -> bool
    ensures { IsTrue result → stays object.now ≡ worn step tally object.now }
{
    match step {
        Wear::Strike => keeps_hits(object, tally),
        Wear::Unload => holds_all(object),
        Wear::Age | Wear::Weather(_) => false,
    }
}

// Whether a creep or a building has some hits, and the tick leaves it as many.
fn keeps_hits(object: &Object, tally: Tally) -> bool
    ensures { IsTrue result → stays object.now ≡ worn Strike tally object.now }
{
    let hits = hits_left(object, tally);
    hits > 0 && hits == object.hits
}

// Whether a creep's live parts hold what it carries.
fn holds_all(creep: &Object) -> bool
    ensures { IsTrue result → stays creep.now ≡ worn Unload no_tally creep.now }
{
    creep.energy == 0 || creep.energy <= u64::from(creep.body.capacity(creep.hits))
}

// Whether a step concerns objects of a kind.
fn concerns(step: Wear, kind: Kind) -> bool
    ensures { result ≡ concerns step kind }
{
    match step {
        Wear::Strike => is_creep(kind) || is_building(kind),
        Wear::Unload | Wear::Age => is_creep(kind),
        Wear::Weather(_) => decays(kind),
    }
}

// A creep or a building with the hits that the tick leaves it.
fn strike(object: &Object, tally: Tally) -> Outcome
    ensures { left_of object.now result ≡ worn Strike tally object.now }
{
    let hits = hits_left(object, tally);
    if hits == 0 {
        Outcome::Goes(Object { hits, ..*object })
    } else if hits == object.hits {
        Outcome::Stays
    } else {
        Outcome::Changes(Object { hits, ..*object })
    }
}

// The hits that the tick leaves a creep or a building.
fn hits_left(object: &Object, tally: Tally) -> u32
    ensures { result ≡ hits_left object.now.kind (sums_of tally) object.now }
{
    match object.kind {
        Kind::Creep => creep_hits_left(object, tally),
        _ => object.hits.saturating_sub(tally.damage),
    }
}

// A creep is healed and damaged at once, up to its most, unless it had no hits.
fn creep_hits_left(creep: &Object, tally: Tally) -> u32
    ensures { result ≡ hits_left Creep (sums_of tally) creep.now }
{
    if creep.hits == 0 {
        return 0;
    }
    let healed = u64::from(creep.hits) + u64::from(tally.healing);
    let left = healed.saturating_sub(u64::from(tally.damage));
    let most = hits_max(Kind::Creep, &creep.body);
    left.min(u64::from(most)) as u32
}

// A creep without what it carries above what its live parts hold.
fn unload(creep: &Object) -> Outcome
    ensures { left_of creep.now result ≡ worn Unload no_tally creep.now }
{
    let held = u64::from(creep.body.capacity(creep.hits));
    if creep.energy <= held {
        return Outcome::Stays;
    }
    let amount = creep.energy - held;
    let left = Object {
        energy: creep.energy - amount,
        ..*creep
    };
    Outcome::Drops(left, amount)
}

// A creep whose timer falls by 1, and which dies where it was the last one.
fn age(creep: &Object) -> Outcome
    ensures { left_of creep.now result ≡ worn Age no_tally creep.now }
{
    if creep.timer > 1 {
        Outcome::Changes(Object {
            timer: creep.timer - 1,
            ..*creep
        })
    } else {
        Outcome::Goes(*creep)
    }
}

// A building that decays.
fn weather(building: &Object, in_owned: bool) -> Outcome
    ensures { left_of building.now result ≡ worn (Weather in_owned) no_tally building.now }
{
    let left = weathered(building, in_owned);
    if left.hits == 0 {
        Outcome::Goes(left)
    } else {
        Outcome::Changes(left)
    }
}

// Whether objects of a kind decay by a timer.
fn decays(kind: Kind) -> bool
    ensures { result ≡ decays kind }
{
    matches!(kind, Kind::Container | Kind::Road)
}

// The hits that a building of a kind loses at a time.
fn decay_hits(kind: Kind) -> u32
    ensures { result ≡ decay_hits kind }
{
    match kind {
        Kind::Container => 5_000,
        _ => 100,
    }
}

// A building whose timer falls by 1, and which loses hits where it was the last one.
fn weathered(building: &Object, in_owned: bool) -> Object
    ensures { result ≡ weathered in_owned building.now }
{
    if building.timer > 1 {
        return Object {
            timer: building.timer - 1,
            ..*building
        };
    }
    Object {
        hits: building.hits.saturating_sub(decay_hits(building.kind)),
        timer: full_timer(building.kind, in_owned),
        ..*building
    }
}
