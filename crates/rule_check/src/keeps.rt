// Whether a stored world keeps the rules.
ghost use Rattle.std.specs.Prelude.{◌≡◌, map, MatchBool, IfOk};
ghost use Rattle.std.specs.List.{AllByRecursion};
ghost use Rattle.room_table.specs.Tables.{IsOnTile, IsRising};
ghost use Rattle.object_store.specs.Stored.{HaveRisingTables};
ghost use Rattle.world_rules.specs.World.{listed_room, listing_of};
ghost use Rattle.rule_check.specs.Kept.{AreOnTiles, KeepsAllButCounts, KeepsObjectRules, is_of_objects};
ghost use Rattle.rule_check.specs.Views.{viewed, viewed_room, IsOrdered};
ghost use Rattle.rule_check.specs.inner.Chosen.{takes, IsKept, KeepsChosen};

use crate::first::{ORDER, least_broken};
use crate::view::RoomView;
use object_store::{Account, Object, Room, RoomTable, World};
use std::alloc::{AllocError, Global};
use world_rules::Rule;

// The rules that are tested.
#[derive(Clone, Copy)]
enum Chosen {
    AllButCounts,
    OfObjects,
}

/// Whether each object stands on a tile of its room, and the world keeps each rule but that of the counts.
///
/// It takes memory for the objects once more, and for what the tests of the rules take.
pub fn keeps_rules(alloc: Global, world: &World) -> Result<bool, AllocError>
    ensures { IfOk result (λ kept. MatchBool kept
        (AreOnTiles world.now.rooms × KeepsAllButCounts (listing_of world.now))
        (AreOnTiles world.now.rooms × KeepsAllButCounts (listing_of world.now) → ⊥)) }
{
    keeps_chosen(alloc, Chosen::AllButCounts, world)
}

/// Whether each object stands on a tile of its room, and the world keeps each rule of objects.
///
/// It takes memory as `keeps_rules` does.
pub fn keeps_object_rules(alloc: Global, world: &World) -> Result<bool, AllocError>
    ensures { IfOk result (λ kept. MatchBool kept (KeepsObjectRules world.now)
        (KeepsObjectRules world.now → ⊥)) }
{
    keeps_chosen(alloc, Chosen::OfObjects, world)
}

// Whether each object stands on a tile of its room, and the world keeps each chosen rule.
fn keeps_chosen(alloc: Global, chosen: Chosen, world: &World) -> Result<bool, AllocError>
    ensures { IfOk result (λ kept. MatchBool kept (KeepsChosen chosen world.now)
        (KeepsChosen chosen world.now → ⊥)) }
{
    let rooms = world.room_list();
    if !are_on_tiles(rooms) {
        return Ok(false);
    }
    let lists = lists_of(alloc, rooms)?;
    let views = views_of(alloc, rooms, &lists)?;
    keep_rules(alloc, chosen, &views, world.account_list())
}

// Whether these rooms and accounts keep each chosen rule.
fn keep_rules(
    alloc: Global,
    chosen: Chosen,
    rooms: &[RoomView],
    accounts: &[Account],
) -> Result<bool, AllocError>
    requires { AllByRecursion IsOrdered rooms.now }
    ensures { IfOk result (λ kept. MatchBool kept (IsKept chosen (viewed rooms.now accounts.now 0))
        (IsKept chosen (viewed rooms.now accounts.now 0) → ⊥)) }
{
    for rule in ORDER {
        if is_chosen(chosen, rule) {
            if let Some(_) = least_broken(alloc, rule, rooms, accounts)? {
                return Ok(false);
            }
        }
    }
    Ok(true)
}

// Whether the rule is tested.
fn is_chosen(chosen: Chosen, rule: Rule) -> bool
    ensures { result ≡ takes chosen rule }
{
    match chosen {
        Chosen::AllButCounts => rule != Rule::Counts,
        Chosen::OfObjects => is_of_objects(rule),
    }
}

// Whether the rule speaks of objects.
fn is_of_objects(rule: Rule) -> bool
    ensures { result ≡ is_of_objects rule }
{
    match rule {
        Rule::Counts | Rule::RoomTwice | Rule::Corner | Rule::PlayerTwice => false,
        Rule::Serial
        | Rule::IdTwice
        | Rule::Tile
        | Rule::Shared
        | Rule::Owner
        | Rule::Controllers
        | Rule::Range
        | Rule::Sites => true,
    }
}

// Whether each object of these rooms stands on a tile.
fn are_on_tiles(rooms: &[Room]) -> bool
    ensures { MatchBool result (AreOnTiles rooms.now) (AreOnTiles rooms.now → ⊥) }
{
    for room in rooms {
        if !is_on_tiles(&room.table) {
            return false;
        }
    }
    true
}

/// Whether each object of this room stands on a tile.
pub fn is_on_tiles(table: &RoomTable) -> bool
    ensures { MatchBool result (AllByRecursion IsOnTile table.now.objects)
        (AllByRecursion IsOnTile table.now.objects → ⊥) }
{
    for object in table.objects() {
        if object.x > 49 || object.y > 49 {
            return false;
        }
    }
    true
}

/// The objects of a room, one behind the other.
pub fn list_of(alloc: Global, table: &RoomTable) -> Result<Vec<Object>, AllocError>
    ensures { IfOk result (λ objects. objects.items ≡ table.now.objects) }
{
    let mut objects = Vec::with_capacity(alloc, table.len() as usize)?;
    for object in table.objects() {
        objects.push(*object)?;
    }
    Ok(objects)
}

// The objects of each room.
fn lists_of(alloc: Global, rooms: &[Room]) -> Result<Vec<Vec<Object>>, AllocError>
    ensures { IfOk result (λ lists. map (λ list. list.items) lists.items
        ≡ map (λ room. room.table.objects) rooms.now) }
{
    let mut lists = Vec::with_capacity(alloc, rooms.len())?;
    for room in rooms {
        lists.push(list_of(alloc, &room.table)?)?;
    }
    Ok(lists)
}

// The rooms with their lists of objects, lent for the tests.
fn views_of<'a>(
    alloc: Global,
    rooms: &'a [Room],
    lists: &'a [Vec<Object>],
) -> Result<Vec<RoomView<'a>>, AllocError>
    requires lists { map (λ list. list.items) lists.now ≡ map (λ room. room.table.objects) rooms.now }
    requires rising { HaveRisingTables rooms.now }
    requires tiles { AreOnTiles rooms.now }
    ensures same { IfOk result (λ views. map viewed_room views.items ≡ map listed_room rooms.entry.now) }
    ensures ordered { IfOk result (λ views. AllByRecursion IsOrdered views.items) }
{
    let mut views = Vec::with_capacity(alloc, rooms.len())?;
    for (index, room) in rooms.iter().enumerate() {
        views.push(view_of(room, &lists[index]))?;
    }
    Ok(views)
}

// A room with its objects, lent for the tests.
fn view_of<'a>(room: &'a Room, objects: &'a [Object]) -> RoomView<'a>
    requires objects { objects.now ≡ room.now.table.objects }
    requires rising { IsRising room.now.table.objects }
    requires tiles { AllByRecursion IsOnTile room.now.table.objects }
    ensures same { viewed_room result ≡ listed_room room.entry.now }
    ensures ordered { IsOrdered result }
{
    RoomView {
        name: room.name,
        terrain: &room.terrain,
        next: room.table.next(),
        objects,
    }
}
