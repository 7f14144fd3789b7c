// The rules of one room.
ghost use Rattle.std.specs.Prelude.{◌≡◌, ◌<◌, MatchBool, IfOk, Some, length, option_map, slice_get};
ghost use Rattle.std.specs.List.{AllByRecursion};
ghost use Rattle.object_store.specs.declared.world.Room.{Room};
ghost use Rattle.object_store.specs.Stored.{HasAccount};
ghost use Rattle.changed_rules.specs.Census.{IsUnborn, IsWronglyHeld, KeepsHere, KeepsIn};

use game_tables::{is_controller, may_have_owner};
use object_store::{Object, RoomTable, World};
use rule_check::{RoomView, is_on_tiles, keeps_room_rules};
use std::alloc::{AllocError as NoMemory, Global};

// An id is its birth room's index times this, plus a serial.
const SERIALS: u64 = 0x1_0000_0000;

/// Whether the room of this index, which has these objects, keeps the rules of a room.
pub(crate) fn keeps_here(
    alloc: Global,
    world: &World,
    place: u32,
    objects: &[Object],
) -> Result<bool, NoMemory>
    requires place { place < length world.now.rooms }
    requires objects { option_map (λ room. room.table.objects) (slice_get world.now.rooms place)
        ≡ Some objects.now }
    ensures { IfOk result (λ kept. (room : Room) → slice_get world.now.rooms place ≡ Some room
        → MatchBool kept (KeepsHere world.now room) (KeepsHere world.now room → ⊥)) }
{
    let table = world.room(place);
    let view = RoomView {
        name: world.name(place),
        terrain: world.terrain(place),
        next: table.next(),
        objects,
    };
    keeps_in(alloc, world, table, &view)
}

// Whether the objects of a table keep the rules of a room, in the room as it is looked at.
fn keeps_in(
    alloc: Global,
    world: &World,
    table: &RoomTable,
    view: &RoomView,
) -> Result<bool, NoMemory>
    requires { view.now.objects.now ≡ table.now.objects }
    ensures { IfOk result (λ kept. MatchBool kept
        (KeepsIn world.now view.now.terrain.now table.now.objects)
        (KeepsIn world.now view.now.terrain.now table.now.objects → ⊥)) }
{
    table.stands_in_order();
    if !is_on_tiles(table) || !are_born(world, view.objects) || !are_held(world, view.objects) {
        return Ok(false);
    }
    keeps_room_rules(alloc, view)
}

// Whether the ids of the objects are serials that rooms of the world have given.
fn are_born(world: &World, objects: &[Object]) -> bool
    ensures { MatchBool result
        (AllByRecursion (λ object. IsUnborn world.now.rooms object.id → ⊥) objects.now)
        (AllByRecursion (λ object. IsUnborn world.now.rooms object.id → ⊥) objects.now → ⊥) }
{
    for object in objects {
        if is_unborn(world, object.id) {
            return false;
        }
    }
    true
}

// Whether the id is no serial that a room of the world has given.
fn is_unborn(world: &World, id: u64) -> bool
    ensures { MatchBool result (IsUnborn world.now.rooms id) (IsUnborn world.now.rooms id → ⊥) }
{
    let serial = id % SERIALS;
    if serial == 0 {
        return true;
    }
    let birth = (id / SERIALS) as u32;
    birth >= world.rooms() || u64::from(world.room(birth).next()) <= serial
}

// Whether players of the world hold the objects.
fn are_held(world: &World, objects: &[Object]) -> bool
    ensures { MatchBool result
        (AllByRecursion (λ object. IsWronglyHeld world.now.accounts object → ⊥) objects.now)
        (AllByRecursion (λ object. IsWronglyHeld world.now.accounts object → ⊥) objects.now → ⊥) }
{
    for object in objects {
        if is_wrongly_held(world, object) {
            return false;
        }
    }
    true
}

// Whether an owner or reserver is no player of the world, or the kind may not have one.
fn is_wrongly_held(world: &World, object: &Object) -> bool
    ensures { MatchBool result (IsWronglyHeld world.now.accounts object.now)
        (IsWronglyHeld world.now.accounts object.now → ⊥) }
{
    (object.owner != 0 && !(may_have_owner(object.kind) && has_account(world, object.owner)))
        || (object.other != 0 && !(is_controller(object.kind) && has_account(world, object.other)))
}

// Whether the player has an account.
fn has_account(world: &World, player: u32) -> bool
    ensures { MatchBool result (HasAccount player world.now.accounts)
        (HasAccount player world.now.accounts → ⊥) }
{
    world.account(player).is_some()
}
