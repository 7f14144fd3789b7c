// The steps of upkeep in which each object of a room changes by itself, or goes.
ghost use Rattle.std.specs.Prelude.{◌≡◌, ◌<◌, ◌-◌, ◌*◌, ◌∷◌, ◌++◌, IsTrue, List, Some, length};
ghost use Rattle.std.specs.List.{AllByRecursion, cons_option};
ghost use Rattle.std.specs.Option.{is_some};
ghost use Rattle.game_tables.specs.Bodies.{live_count};
ghost use Rattle.game_tables.specs.declared.kind.Part.TheVariants.{Move};
ghost use Rattle.room_terrain.specs.declared.terrain.Ground.{Ground};
ghost use Rattle.room_table.specs.declared.object.Object.{Object};
ghost use Rattle.room_table.specs.Tables.{IsOnTile};
ghost use Rattle.world_rules.specs.RoomParts.{table_part};
ghost use Rattle.world_rules.specs.Steps.{each};
ghost use Rattle.world_rules.specs.Upkeep.{source_renewed, pile_decayed};
ghost use Rattle.upkeep_rules.specs.inner.Passed.{left_by, left_of, passed};

use crate::control::aged;
use game_tables::{Kind, Part, pile_decay, renewal_ticks};
use object_store::{Object, RoomTable};

/// A step in which each object changes by itself, or goes.
#[derive(Clone, Copy)]
pub(crate) enum Step {
    /// Creeps recover from fatigue.
    Recover,
    /// Controllers lose time.
    Control,
    /// Sources are renewed, up to this capacity.
    Renew(u64),
    /// Piles decay.
    Decay,
}

/// The objects of a room after a step.
pub(crate) fn pass(room: &mut RoomTable, step: Step)
    requires tiles { AllByRecursion IsOnTile room.old.objects }
    ensures table { room.new ≡ passed step room.new.tallies room.old }
    ensures rule { (grounds : List Ground)
        → table_part grounds room.new ≡ each (left_by step) (table_part grounds room.old) }
    ensures tiles { AllByRecursion IsOnTile room.new.objects }
{
    // The objects rise by their ids, as those of the room's part do.
    room.stands_in_order();
    let mut place = 0;
    while place < room.len() {
        if is_left(room, place, step) {
            place += 1;
        }
    }
}

// Keeps up the object at a place, and tells whether it is left. One that stays as it is is only looked at:
// what holds a changed object stands apart, since the room of it is cleared at each call.
fn is_left(room: &mut RoomTable, place: u32, step: Step) -> bool
    requires inside { place < length room.old.objects }
    requires tiles { AllByRecursion IsOnTile room.old.objects }
    ensures tiles { AllByRecursion IsOnTile room.new.objects }
    ensures left { (before after : List Object) (object : Object)
        → room.old.objects ≡ before ++ object ∷ after → length before ≡ place
        → result ≡ is_some (left_by step object) }
    ensures table { (before after : List Object) (object : Object)
        → room.old.objects ≡ before ++ object ∷ after → length before ≡ place
        → room.new ≡ record room.old {
          objects = before ++ cons_option (left_by step object) after;
          tallies = room.new.tallies;
        } }
{
    let Some(object) = room.nth(place) else {
        unreachable!()
    };
    if stays(step, object) {
        return true;
    }
    is_left_changed(room, place, step)
}

// Whether an object is one that a step leaves as it is.
#[tactic(auto, using(crate::proofs::Lefts::by_kind))]
fn stays(step: Step, object: &Object) -> bool
    ensures { IsTrue result → left_by step object.now ≡ Some object.now }
{
    match (step, object.kind) {
        (Step::Recover, Kind::Creep) => object.extra == 0,
        (Step::Control, Kind::Controller) => false,
        (Step::Renew(capacity), Kind::Source) => object.timer == 0 && object.energy >= capacity,
        (Step::Decay, Kind::Pile) => false,
        _ => true,
    }
}

// Keeps up the object at a place, which may change, and tells whether it is left.
fn is_left_changed(room: &mut RoomTable, place: u32, step: Step) -> bool
    requires inside { place < length room.old.objects }
    requires tiles { AllByRecursion IsOnTile room.old.objects }
    ensures tiles { AllByRecursion IsOnTile room.new.objects }
    ensures left { (before after : List Object) (object : Object)
        → room.old.objects ≡ before ++ object ∷ after → length before ≡ place
        → result ≡ is_some (left_by step object) }
    ensures table { (before after : List Object) (object : Object)
        → room.old.objects ≡ before ++ object ∷ after → length before ≡ place
        → room.new ≡ record room.old {
          objects = before ++ cons_option (left_by step object) after;
          tallies = room.new.tallies;
        } }
{
    room.stands_in_order();
    let Some(object) = room.nth(place) else {
        unreachable!()
    };
    let id = object.id;
    match keep_up(step, object) {
        Upkept::Stays => true,
        Upkept::Changes(left) => {
            room.set(left);
            true
        }
        Upkept::Goes => {
            room.remove(id);
            false
        }
    }
}

// What a step makes of an object.
#[derive(Clone, Copy)]
enum Upkept {
    Stays,
    Changes(Object),
    Goes,
}

// An object after a step. Those that the step does not concern are only looked at.
#[tactic(auto, using(crate::proofs::Lefts::by_kind))]
fn keep_up(step: Step, object: &Object) -> Upkept
    ensures { left_of object.now result ≡ left_by step object.now }
{
    match (step, object.kind) {
        (Step::Recover, Kind::Creep) => recover(object),
        (Step::Control, Kind::Controller) => Upkept::Changes(aged(object)),
        (Step::Renew(capacity), Kind::Source) => renew_source(object, capacity),
        (Step::Decay, Kind::Pile) => decay_pile(object),
        _ => Upkept::Stays,
    }
}

// A creep whose fatigue falls by 2 for each live MOVE part.
fn recover(creep: &Object) -> Upkept
    ensures { left_of creep.now result
        ≡ Some (record creep.now {
          extra = creep.now.extra - 2 * live_count Move creep.now.hits creep.now.body;
        }) }
{
    if creep.extra == 0 {
        return Upkept::Stays;
    }
    let fallen = 2 * creep.body.live(Part::Move, creep.hits);
    Upkept::Changes(Object {
        extra: creep.extra.saturating_sub(fallen),
        ..*creep
    })
}

// A source that is renewed up to a capacity.
fn renew_source(source: &Object, capacity: u64) -> Upkept
    ensures { left_of source.now result ≡ Some (source_renewed capacity source.now) }
{
    if source.timer > 1 {
        Upkept::Changes(Object {
            timer: source.timer - 1,
            ..*source
        })
    } else if source.timer == 1 {
        Upkept::Changes(Object {
            timer: 0,
            energy: source.energy.max(capacity),
            ..*source
        })
    } else if source.energy < capacity {
        Upkept::Changes(Object {
            timer: renewal_ticks(),
            ..*source
        })
    } else {
        Upkept::Stays
    }
}

// A pile that loses a part of its energy.
fn decay_pile(pile: &Object) -> Upkept
    ensures { left_of pile.now result ≡ pile_decayed pile.now }
{
    let energy = pile.energy - pile_decay(pile.energy);
    if energy == 0 {
        Upkept::Goes
    } else {
        Upkept::Changes(Object { energy, ..*pile })
    }
}
