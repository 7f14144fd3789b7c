// The census of a world.
ghost use Rattle.std.specs.Prelude.{◌≡◌, ◌<◌, ℕ, nat_eq, [], IfOk, OnOk, MatchBool, MatchOption, Some};
ghost use Rattle.std.specs.Prelude.{length, slice_get};
ghost use Rattle.std.specs.List.{AllByRecursion, IsDistinct};
ghost use Rattle.object_store.specs.declared.world.Room.{Room};
ghost use Rattle.object_store.specs.Stored.{Stored};
ghost use Rattle.room_table.specs.Tables.{IsRising};
ghost use Rattle.rule_check.specs.Kept.{KeepsObjectRules};
ghost use Rattle.changed_rules.specs.Census.{ArePlaced, HasLeft, IsCensus, IsCensusApart, IsChanged};
ghost use Rattle.changed_rules.specs.Census.{KeepsElsewhere, KeepsSerials, tally_of};
ghost use Rattle.changed_rules.specs.inner.Parts.{Adds, AreFew, Drops, Enters, Exceeds, IsRefused};
ghost use Rattle.changed_rules.specs.declared.counted.Counted.{Counted};

use crate::counted::{Counted, enter_objects, leave_objects};
use crate::places::{all_places, keep_serials, places_of};
use crate::room::keeps_here;
use crate::tally::Tally;
use object_store::{Object, RoomTable, World};
use rule_check::list_of;
use std::alloc::{AllocError as NoMemory, Global};

/// The ids of a world's objects, and how many sites each player has in it.
pub struct Census {
    ids: Tally,
    owners: Tally,
}

impl Drop for Census {
    fn drop(self) {
        let Census { ids: _, owners: _ } = self;
    }
}

impl Census {
    /// The census of a world that keeps the rules of objects, and nothing of one that does not.
    pub fn of(alloc: Global, world: &World) -> Result<Option<Census>, NoMemory>
        requires { ArePlaced world.now.rooms }
        ensures { IfOk result (λ found. MatchOption found (KeepsObjectRules world.now → ⊥)
            (λ census. KeepsObjectRules world.now × IsCensus world.now census)) }
    {
        let mut census = Census {
            ids: Tally::new(alloc),
            owners: Tally::new(alloc),
        };
        let places = all_places(alloc, world.rooms())?;
        if census.enter_rooms(alloc, world, &places)? {
            Ok(Some(census))
        } else {
            Ok(None)
        }
    }

    /// Takes the objects of the rooms of these tables out of the census, before the tables are put in their
    /// place, and says whether none lowers the next serial of its room: then, once they are in their place,
    /// all other rooms still keep the rules. On want of memory the census may be any.
    ///
    /// It takes time and memory for the objects of these rooms alone.
    pub fn leave(
        &mut self,
        alloc: Global,
        world: &World,
        tables: &[RoomTable],
    ) -> Result<bool, NoMemory>
        requires rules { KeepsObjectRules world.now }
        requires census { IsCensus world.now self.old }
        requires rooms { AllByRecursion (λ table. table.index < length world.now.rooms) tables.now }
        ensures answer { IfOk result (λ kept. MatchBool kept
            (AllByRecursion (KeepsSerials world.now.rooms) tables.now)
            (AllByRecursion (KeepsSerials world.now.rooms) tables.now → ⊥)) }
        ensures left { IfOk result (λ kept. (after : Stored) → IsChanged tables.now world.now after
            → HasLeft tables.now after self.new kept) }
    {
        let places = places_of(alloc, tables)?;
        self.leave_rooms(alloc, world, &places)?;
        Ok(keep_serials(world, tables))
    }

    /// Adds the objects of the rooms of these tables, which are now in their place, and says whether the
    /// world keeps the rules of objects. Where it does not, and on want of memory, the census may be any.
    ///
    /// Where the other rooms are known to keep the rules, it takes time and memory for the objects of these
    /// rooms alone; otherwise it makes the census of the whole world anew.
    pub fn enter(
        &mut self,
        alloc: Global,
        world: &World,
        tables: &[RoomTable],
        kept: bool,
    ) -> Result<bool, NoMemory>
        requires { HasLeft tables.now world.now self.old kept }
        ensures { IfOk result (λ keeps. MatchBool keeps
            (KeepsObjectRules world.now × IsCensus world.now self.new)
            (KeepsObjectRules world.now → ⊥)) }
    {
        if kept {
            let places = places_of(alloc, tables)?;
            return self.enter_rooms(alloc, world, &places);
        }
        match Census::of(alloc, world)? {
            Some(census) => {
                *self = census;
                Ok(true)
            }
            None => Ok(false),
        }
    }

    // Adds the objects of these rooms, where the world then keeps the rules.
    fn enter_rooms(
        &mut self,
        alloc: Global,
        world: &World,
        places: &[u32],
    ) -> Result<bool, NoMemory>
        requires rest { KeepsElsewhere places.now world.now }
        requires census { IsCensusApart places.now world.now self.old }
        requires once { IsDistinct nat_eq places.now }
        requires rooms { AllByRecursion (λ place. place < length world.now.rooms) places.now }
        requires places { ArePlaced world.now.rooms }
        ensures { IfOk result (λ keeps. MatchBool keeps
            (KeepsObjectRules world.now × IsCensus world.now self.new)
            (KeepsObjectRules world.now → ⊥)) }
    {
        for place in places {
            if !self.enter_room(alloc, world, *place)? {
                return Ok(false);
            }
        }
        Ok(true)
    }

    // Adds the objects of the room, where it keeps the rules and none is then under a number more often than
    // may be.
    fn enter_room(&mut self, alloc: Global, world: &World, place: u32) -> Result<bool, NoMemory>
        requires few { (counted : Counted) → AreFew counted (tally_of counted self.old) }
        requires place { place < length world.now.rooms }
        ensures rising { IfOk result (λ fits. (room : Room) → slice_get world.now.rooms place ≡ Some room
            → IsRising room.table.objects) }
        ensures answer { IfOk result (λ fits. (room : Room) → slice_get world.now.rooms place ≡ Some room
            → MatchBool fits (Enters world.now room self.old self.new)
            (IsRefused world.now room self.old)) }
    {
        let table = world.room(place);
        table.stands_in_order();
        let objects = list_of(alloc, table)?;
        if !keeps_here(alloc, world, place, &objects)? {
            return Ok(false);
        }
        self.enter_both(&objects)
    }

    // Adds objects, where none is then under a number more often than may be.
    fn enter_both(&mut self, objects: &[Object]) -> Result<bool, NoMemory>
        requires { (counted : Counted) → AreFew counted (tally_of counted self.old) }
        ensures { IfOk result (λ fits. MatchBool fits
            ((counted : Counted) → Adds counted objects.now (tally_of counted self.old)
            (tally_of counted self.new))
            ((counted : Counted) × Exceeds counted objects.now (tally_of counted self.old))) }
    {
        if !enter_objects(Counted::Ids, objects, &mut self.ids)? {
            return Ok(false);
        }
        enter_objects(Counted::SiteOwners, objects, &mut self.owners)
    }

    // Takes the objects of these rooms out.
    fn leave_rooms(&mut self, alloc: Global, world: &World, places: &[u32]) -> Result<(), NoMemory>
        requires census { IsCensusApart [] world.now self.old }
        requires once { IsDistinct nat_eq places.now }
        requires rooms { AllByRecursion (λ place. place < length world.now.rooms) places.now }
        requires places { ArePlaced world.now.rooms }
        ensures { OnOk result (IsCensusApart places.now world.now self.new) }
    {
        for at in (0..places.len()).rev() {
            self.leave_room(alloc, world, places[at])?;
        }
        Ok(())
    }

    // Takes the objects of the room out.
    fn leave_room(&mut self, alloc: Global, world: &World, place: u32) -> Result<(), NoMemory>
        requires { place < length world.now.rooms }
        ensures { OnOk result ((room : Room) → slice_get world.now.rooms place ≡ Some room
            → (counted : Counted) → Drops counted room.table.objects (tally_of counted self.old)
            (tally_of counted self.new)) }
    {
        let objects = list_of(alloc, world.room(place))?;
        self.leave_both(&objects)
    }

    // Takes objects out.
    fn leave_both(&mut self, objects: &[Object]) -> Result<(), NoMemory>
        ensures { OnOk result ((counted : Counted) → Drops counted objects.now (tally_of counted self.old)
            (tally_of counted self.new)) }
    {
        leave_objects(Counted::Ids, objects, &mut self.ids)?;
        leave_objects(Counted::SiteOwners, objects, &mut self.owners)
    }
}
