// The world of a draft that keeps the rules.
ghost use Rattle.std.specs.Prelude.{◌≡◌, ◌<◌, ◌^◌, ◌+◌, ◌++◌, [], length, map, IfOk, OnOk};
ghost use Rattle.std.specs.List.{AllByRecursion};
ghost use Rattle.rule_check.specs.Views.{viewed_room, IsOrdered};
ghost use Rattle.object_store.specs.Stored.{AreRising};
ghost use Rattle.world_rules.specs.World.{listed_room};
ghost use Rattle.world_text.specs.inner.Drafts.{drafted_room, IsOrderedDraft, IsRisingDraft, HavePlaces};

use crate::draft::RoomDraft;
use object_store::{Account, RoomTable, World};
use rule_check::RoomView;
use std::alloc::{AllocError, Global};

/// The rooms of a draft, lent for the test of the rules.
pub fn views_of(alloc: Global, rooms: &[RoomDraft]) -> Result<Vec<RoomView<'_>>, AllocError>
    requires { AllByRecursion IsOrderedDraft rooms.now }
    ensures same { IfOk result (λ views. map viewed_room views.items ≡ map drafted_room rooms.now) }
    ensures ordered { IfOk result (λ views. AllByRecursion IsOrdered views.items) }
{
    let mut views = Vec::with_capacity(alloc, rooms.len())?;
    for room in rooms {
        views.push(RoomView {
            name: room.name,
            terrain: &room.terrain,
            next: room.next,
            objects: &room.objects,
        })?;
    }
    Ok(views)
}

/// Adds rooms at the end of a world.
pub fn add_rooms(alloc: Global, world: &mut World, rooms: Vec<RoomDraft>) -> Result<(), AllocError>
    requires places { HavePlaces world.old.rooms }
    requires rising { AllByRecursion IsRisingDraft rooms.items }
    requires room { length world.old.rooms + length rooms.items < 2 ^ 32 }
    ensures rooms { OnOk result (map listed_room world.new.rooms ≡ map listed_room world.old.rooms
        ++ map drafted_room rooms.items) }
    ensures places { OnOk result (HavePlaces world.new.rooms) }
    ensures tick { world.new.tick ≡ world.old.tick }
    ensures accounts { world.new.accounts ≡ world.old.accounts }
{
    for room in rooms {
        let table = RoomTable::of(alloc, world.rooms(), room.next, room.objects)?;
        world.push_room(room.name, room.terrain, table)?;
    }
    Ok(())
}

/// Gives a world without accounts these.
pub fn add_accounts(world: &mut World, accounts: Vec<Account>) -> Result<(), AllocError>
    requires none { world.old.accounts ≡ [] }
    requires rising { AreRising accounts.items }
    requires room { length accounts.items < 2 ^ 32 }
    ensures { OnOk result (world.new ≡ record world.old { accounts = accounts.items }) }
{
    for account in accounts {
        world.push_account(account)?;
    }
    Ok(())
}
