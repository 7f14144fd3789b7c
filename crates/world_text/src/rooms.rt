// The rooms of a world file.
ghost use Rattle.std.specs.Prelude.{◌≡◌, ◌≢◌, ◌≤◌, ◌-◌, ◌^◌, List, IfOk, IfErr};
ghost use Rattle.serde_json.specs.View.{view, items_view};
ghost use Rattle.world_rules.specs.World.{ListedRoom};
ghost use Rattle.world_form.specs.Facts.{Requires, IsListOf, IsNameText, IsTerrainText, SayEach, SaysRoom};
ghost use Rattle.world_form.specs.FirstFaults.{IsFirst, required, each_from, room_checks};
ghost use Rattle.world_form.specs.declared.field.Field.TheVariants as fields;
ghost use Rattle.world_text.specs.inner.Readings.{list_checks};
ghost use Rattle.world_text.specs.inner.Drafts.{AreDrafts, SaysDraft};

use crate::draft::RoomDraft;
use crate::keys::{required_list, required_number, required_value};
use crate::objects::read_objects;
use crate::values::{name_of, terrain_of};
use object_store::{RoomName, Terrain};
use serde_json::Value;
use std::alloc::Global;
use world_form::{Field, WorldFault};

const MOST_NEXT: u64 = 0xffff_ffff;

/// The rooms of a file, or the first fault of the list.
pub fn read_rooms(alloc: Global, part: &Value) -> Result<Vec<RoomDraft>, WorldFault>
    ensures ok { IfOk result
        (λ drafts. (said : List ListedRoom) × Requires fields.Rooms (IsListOf SaysRoom) (view part.now) said
        × AreDrafts said drafts.items) }
    ensures err { IfErr result (λ e. e ≢ WorldFault.Memory
        → IsFirst (list_checks fields.Rooms room_checks 0 (view part.now)) e) }
{
    let values = required_list(part, Field::Rooms, 0)?;
    read_room_list(alloc, values)
}

fn read_room_list(alloc: Global, values: &[Value]) -> Result<Vec<RoomDraft>, WorldFault>
    ensures ok { IfOk result (λ drafts. SayEach SaysDraft (items_view values.now) drafts.items) }
    ensures err { IfErr result (λ e. e ≢ WorldFault.Memory
        → IsFirst (each_from room_checks 0 (items_view values.now)) e) }
{
    let mut drafts = Vec::with_capacity(alloc, values.len())?;
    for (place, value) in values.iter().enumerate() {
        let draft = read_room(alloc, value, place as u64)?;
        drafts.push(draft)?;
    }
    Ok(drafts)
}

// A room with its objects, or the first fault of its keys.
fn read_room(alloc: Global, part: &Value, place: u64) -> Result<RoomDraft, WorldFault>
    ensures ok { IfOk result (SaysDraft (view part.now)) }
    ensures err { IfErr result (λ e. e ≢ WorldFault.Memory → IsFirst (room_checks place (view part.now)) e) }
{
    let name = read_name(part, place)?;
    let terrain = read_terrain(alloc, part, place)?;
    let next = required_number(part, Field::Next, place, 1, MOST_NEXT)?;
    let objects = read_objects(alloc, part, place)?;
    Ok(RoomDraft {
        name,
        terrain,
        next: next as u32,
        objects,
    })
}

fn read_name(part: &Value, place: u64) -> Result<RoomName, WorldFault>
    ensures ok { IfOk result (Requires fields.Name IsNameText (view part.now)) }
    ensures err { IfErr result (required fields.Name IsNameText place (view part.now)).Fails }
{
    let value = required_value(part, Field::Name)?;
    match name_of(value) {
        Some(name) => Ok(name),
        None => Err(WorldFault::BadValue(Field::Name, place)),
    }
}

fn read_terrain(alloc: Global, part: &Value, place: u64) -> Result<Terrain, WorldFault>
    ensures ok { IfOk result (Requires fields.Terrain IsTerrainText (view part.now)) }
    ensures err { IfErr result (λ e. e ≢ WorldFault.Memory
        → (required fields.Terrain IsTerrainText place (view part.now)).Fails e) }
{
    let value = required_value(part, Field::Terrain)?;
    match terrain_of(alloc, value)? {
        Some(terrain) => Ok(terrain),
        None => Err(WorldFault::BadValue(Field::Terrain, place)),
    }
}
