// The objects of a world file.
ghost use Rattle.std.specs.Prelude.{◌≡◌, ◌≢◌, ◌≤◌, ◌<◌, List, [], IfOk, IfErr};
ghost use Rattle.serde_json.specs.View.{view, items_view};
ghost use Rattle.room_table.specs.declared.object.Object.{Object};
ghost use Rattle.world_form.specs.Facts.{Requires, Defaults, IsKindText, IsBodyList, IsListOf, SayEach};
ghost use Rattle.world_form.specs.Facts.{SaysObject};
ghost use Rattle.world_form.specs.FirstFaults.{IsFirst, required, optional, each_from, object_checks};
ghost use Rattle.world_form.specs.declared.field.Field.TheVariants as fields;
ghost use Rattle.world_text.specs.inner.Readings.{SaysIdentity, identity_checks, SaysHolding, holding_checks};
ghost use Rattle.world_text.specs.inner.Readings.{SaysCounters, counter_checks, list_checks};
ghost use Rattle.world_text.specs.inner.Drafts.{IsSorting};

use crate::keys::{optional_number, required_list, required_number, required_value};
use crate::values::{body_of, kind_of};
use game_tables::{Body, Kind, hits_max, is_in_rules};
use object_store::Object;
use serde_json::Value;
use std::alloc::Global;
use world_form::{Field, WorldFault};

const MOST_53: u64 = 0x20_0000_0000_0000;

const MOST_32: u64 = 0xffff_ffff;

/// What an object is, and where.
#[derive(Clone, Copy)]
pub struct Identity {
    pub id: u64,
    pub kind: Kind,
    pub x: u8,
    pub y: u8,
}

/// Whose an object is, and what it is made of.
#[derive(Clone, Copy)]
pub struct Holding {
    pub owner: u32,
    pub body: Body,
    pub hits: u32,
}

/// The other numbers of an object.
#[derive(Clone, Copy)]
pub struct Counters {
    pub energy: u64,
    pub timer: u32,
    pub extra: u32,
    pub progress: u64,
    pub other: u32,
    pub other_ticks: u32,
}

/// The objects of a room, in the order of their ids, or the first fault of the list.
pub fn read_objects(alloc: Global, part: &Value, place: u64) -> Result<Vec<Object>, WorldFault>
    ensures ok { IfOk result
        (λ objects. (said : List Object) × Requires fields.Objects (IsListOf SaysObject) (view part.now) said
        × IsSorting (λ object. object.id) said objects.items) }
    ensures err { IfErr result (λ e. e ≢ WorldFault.Memory
        → IsFirst (list_checks fields.Objects object_checks place (view part.now)) e) }
{
    let values = required_list(part, Field::Objects, place)?;
    let mut objects = read_object_list(alloc, values)?;
    objects.sort_unstable_by_key(|object| object.id);
    Ok(objects)
}

fn read_object_list(alloc: Global, values: &[Value]) -> Result<Vec<Object>, WorldFault>
    ensures ok { IfOk result (λ objects. SayEach SaysObject (items_view values.now) objects.items) }
    ensures err { IfErr result (λ e. e ≢ WorldFault.Memory
        → IsFirst (each_from object_checks 0 (items_view values.now)) e) }
{
    let mut objects = Vec::with_capacity(alloc, values.len())?;
    for (place, value) in values.iter().enumerate() {
        let object = read_object(value, place as u64)?;
        objects.push(object)?;
    }
    Ok(objects)
}

// The object that a part of the file says, or the first fault of its keys.
fn read_object(part: &Value, place: u64) -> Result<Object, WorldFault>
    ensures ok { IfOk result (SaysObject (view part.now)) }
    ensures err { IfErr result (IsFirst (object_checks place (view part.now))) }
{
    let identity = read_identity(part, place)?;
    let holding = read_holding(part, place, identity.kind)?;
    let counters = read_counters(part, place)?;
    Ok(Object {
        id: identity.id,
        kind: identity.kind,
        x: identity.x,
        y: identity.y,
        owner: holding.owner,
        hits: holding.hits,
        energy: counters.energy,
        timer: counters.timer,
        extra: counters.extra,
        progress: counters.progress,
        other: counters.other,
        other_ticks: counters.other_ticks,
        body: holding.body,
    })
}

fn read_identity(part: &Value, place: u64) -> Result<Identity, WorldFault>
    ensures ok { IfOk result (SaysIdentity (view part.now)) }
    ensures err { IfErr result (IsFirst (identity_checks place (view part.now))) }
{
    let id = required_number(part, Field::Id, place, 1, MOST_53)?;
    let kind = read_kind(part, place)?;
    if !is_in_rules(kind, 1) {
        return Err(WorldFault::NotBuilt(kind));
    }
    let x = required_number(part, Field::X, place, 0, 49)?;
    let y = required_number(part, Field::Y, place, 0, 49)?;
    Ok(Identity {
        id,
        kind,
        x: x as u8,
        y: y as u8,
    })
}

fn read_kind(part: &Value, place: u64) -> Result<Kind, WorldFault>
    ensures ok { IfOk result (Requires fields.Kind IsKindText (view part.now)) }
    ensures err { IfErr result (required fields.Kind IsKindText place (view part.now)).Fails }
{
    let value = required_value(part, Field::Kind)?;
    match kind_of(value) {
        Some(kind) => Ok(kind),
        None => Err(WorldFault::BadValue(Field::Kind, place)),
    }
}

fn read_holding(part: &Value, place: u64, kind: Kind) -> Result<Holding, WorldFault>
    ensures ok { IfOk result (SaysHolding kind (view part.now)) }
    ensures err { IfErr result (IsFirst (holding_checks place (view part.now))) }
{
    let owner = optional_number(part, Field::Owner, place, 0, MOST_32)?;
    let body = read_body(part, place)?;
    let full = hits_max(kind, &body) as u64;
    let hits = optional_number(part, Field::Hits, place, full, MOST_32)?;
    Ok(Holding {
        owner: owner as u32,
        body,
        hits: hits as u32,
    })
}

fn read_body(part: &Value, place: u64) -> Result<Body, WorldFault>
    ensures ok { IfOk result (Defaults fields.Body IsBodyList [] (view part.now)) }
    ensures err { IfErr result (optional fields.Body IsBodyList place (view part.now)).Fails }
{
    let Some(value) = part.get(Field::Body.key()) else {
        return Ok(Body::new());
    };
    match body_of(value) {
        Some(body) => Ok(body),
        None => Err(WorldFault::BadValue(Field::Body, place)),
    }
}

fn read_counters(part: &Value, place: u64) -> Result<Counters, WorldFault>
    ensures ok { IfOk result (SaysCounters (view part.now)) }
    ensures err { IfErr result (IsFirst (counter_checks place (view part.now))) }
{
    let energy = optional_number(part, Field::Energy, place, 0, MOST_53)?;
    let timer = optional_number(part, Field::Timer, place, 0, MOST_32)?;
    let extra = optional_number(part, Field::Extra, place, 0, MOST_32)?;
    let progress = optional_number(part, Field::Progress, place, 0, MOST_53)?;
    let other = optional_number(part, Field::Other, place, 0, MOST_32)?;
    let other_ticks = optional_number(part, Field::OtherTicks, place, 0, MOST_32)?;
    Ok(Counters {
        energy,
        timer: timer as u32,
        extra: extra as u32,
        progress,
        other: other as u32,
        other_ticks: other_ticks as u32,
    })
}
