// The objects of one room.
ghost use Rattle.std.specs.Prelude.{◌≡◌, ◌==◌, ◌<◌, ◌≤◌, ◌+◌, ◌-◌, ◌*◌, ◌^◌, [], ◌↔◌, IsTrue, length, max};
ghost use Rattle.std.specs.Prelude.{slice_get, option_copied, option_map, vec_capacity, Some, None, IfSome};
ghost use Rattle.std.specs.Prelude.{IfNone, IfOk, OnOk, OnErr};
ghost use Rattle.std.specs.List.{AllByRecursion, HoldsAt, list_any};
ghost use Rattle.std.specs.Map.Iter.{ShowsInOrder, deref};
ghost use Rattle.room_table.specs.declared.object.Object.{Object};
ghost use Rattle.room_table.specs.Tables.{Table, IsRising, IsOnTile, HasId, HasNoId, AreTalliesOf};
ghost use Rattle.room_table.specs.Tables.{cover_of, find_object, find_from, greatest_id, is_barred};
ghost use Rattle.room_table.specs.Tables.{is_obstructed, is_site_free, with_object, with_new, removed};
ghost use Rattle.room_table.specs.Tables.{first_on, first_on_from};
ghost use Rattle.room_table.specs.Tallies.{damaged, healed, no_tallies, tally_of};
ghost use Rattle.room_table.specs.inner.Kept.{is_kind_on};
ghost use Rattle.room_table.specs.inner.Owners.{Covers};
ghost use Rattle.room_table.specs.inner.Tallied.{AreBeside, done_to};
ghost use Rattle.std.specs.FinMap.{from_entries};
ghost use Rattle.room_table.specs.Controllers.{controller_among};

use crate::controller::{controller_slot, kept_or_sought, stays};
use crate::object::Object;
use crate::objects::Objects;
use crate::owners::Owners;
use crate::slots::{
    clear, copied, copied_tallies, has_owned, least_on, next_of_tile, numbers, place, position,
    search, search_next, slot_of, tile_of, tiles_of, untallied,
};
use crate::tally::Tally;
use crate::tile_index::{TILES, TileIndex};
use game_tables::{Kind, is_controller};
use std::alloc::{AllocError, Global};
use std::marker::Model;

/// The objects of one room in rising id, with the room's index in the world and the serial of its
/// next new object, and what was done to them so far in a tick.
///
/// Each object stays in the slot where it was put, and `order` has the slots by rising id. So an id
/// is found by halving, and a birth and a death move no object. A slot whose object was taken out
/// stays empty until the table is copied. The objects on a tile are found by its chain, and most
/// players who own nothing are told without a look at the objects. The slot of the room's controller
/// is kept. What was done to an object stands beside its slot.
pub struct RoomTable {
    index: u32,
    next: u32,
    slots: Vec<Object>,
    order: Vec<u32>,
    tiles: TileIndex,
    tallies: Vec<Tally>,
    spare: u32,
    owners: Owners,
    controller: Option<u32>,
}

impl Drop for RoomTable {
    fn drop(self) {
        let RoomTable {
            index: _,
            next: _,
            slots: _,
            order: _,
            tiles: _,
            tallies: _,
            spare: _,
            owners: _,
            controller: _,
        } = self;
    }
}

impl Model for RoomTable {
    ghost use Rattle.std.specs.Prelude.{◌<◌, ◌≤◌, ◌+◌, ◌^◌, length, vec_capacity};
    ghost use Rattle.room_table.specs.Tables.{Table};
    ghost use Rattle.room_table.specs.inner.Kept.{IsController};
    ghost use Rattle.room_table.specs.inner.Owners.{Covers};
    ghost use Rattle.room_table.specs.inner.Placed.{standing, IsPlaced, HasRoom};
    ghost use Rattle.room_table.specs.inner.Tallied.{tallied, AreBeside};
    ghost use Rattle.std.specs.Coded.{codes};
    ghost use Rattle.room_table.specs.Tallies.{tallies_code};

    ghost Value = { Table };

    ghost coded = { Prim.hlevel (codes, tallies_code) };

    ghost view = { λ t.
        record {
          index = t.index;
          next = t.next;
          objects = standing t.slots.items t.order.items;
          spare = t.spare;
          tallies = tallied t.slots.items t.tallies.items t.order.items;
        } };

    ghost invariant = { λ t. IsPlaced t.slots.items t.order.items t.tiles.tiles
        × HasRoom t.slots t.order t.tiles t.spare × AreBeside t.slots.items t.tallies t.spare
        × Covers t.owners.remainders (standing t.slots.items t.order.items)
        × IsController t.slots.items t.order.items t.controller };
}

impl RoomTable {
    /// An empty table.
    pub fn new(alloc: Global, index: u32, next: u32) -> RoomTable
        ensures { result
            ≡ record { index = index; next = next; objects = []; spare = 0; tallies = no_tallies } }
    {
        RoomTable {
            index,
            next,
            slots: Vec::new(alloc),
            order: Vec::new(alloc),
            tiles: TileIndex::new(alloc),
            tallies: Vec::new(alloc),
            spare: 0,
            owners: Owners::none(),
            controller: None,
        }
    }

    /// The table of these objects, which stay where they are.
    pub fn of(
        alloc: Global,
        index: u32,
        next: u32,
        objects: Vec<Object>,
    ) -> Result<RoomTable, AllocError>
        requires rising { IsRising objects.items }
        requires within { length objects.items < 2 ^ 32 }
        ensures { IfOk result (λ table. table ≡ record {
          index = index;
          next = next;
          objects = objects.items;
          spare = 0;
          tallies = no_tallies;
        }) }
    {
        let owners = Owners::of(&objects);
        let tallies = untallied(alloc, objects.len())?;
        RoomTable::filled(alloc, index, next, objects, tallies, 0, owners)
    }

    // The table of the objects of these slots, in which there is room for some more.
    fn filled(
        alloc: Global,
        index: u32,
        next: u32,
        slots: Vec<Object>,
        tallies: Vec<Tally>,
        spare: u32,
        owners: Owners,
    ) -> Result<RoomTable, AllocError>
        requires rising { IsRising slots.items }
        requires within { length slots.items + spare < 2 ^ 32 }
        requires room { length slots.items + spare ≤ vec_capacity slots }
        requires owners { Covers owners.remainders slots.items }
        requires beside { AreBeside slots.items tallies spare }
        ensures { IfOk result (λ table. table ≡ record {
          index = index;
          next = next;
          objects = slots.items;
          spare = spare;
          tallies = from_entries (done_to slots.items tallies.items);
        }) }
    {
        let room = slots.len() + spare as usize;
        let order = numbers(alloc, slots.len(), room)?;
        let tiles = tiles_of(alloc, &slots, room)?;
        let controller = controller_slot(&slots, &order);
        Ok(RoomTable {
            index,
            next,
            slots,
            order,
            tiles,
            tallies,
            spare,
            owners,
            controller,
        })
    }

    /// The number of objects.
    pub fn len(&self) -> u32
        ensures { result ≡ length self.now.objects }
    {
        self.order.len() as u32
    }

    /// Whether there is no object.
    pub fn is_empty(&self) -> bool
        ensures { IsTrue result ↔ (self.now.objects ≡ []) }
    {
        self.order.is_empty()
    }

    /// The room's place in the world.
    pub fn index(&self) -> u32
        ensures { result ≡ self.now.index }
    {
        self.index
    }

    /// The serial of the next new object.
    pub fn next(&self) -> u32
        ensures { result ≡ self.now.next }
    {
        self.next
    }

    /// Says that the objects stand in rising id, that there are fewer than 2^32, and that what was done is
    /// told of them alone. It does nothing.
    pub fn stands_in_order(&self)
        ensures rising { IsRising self.now.objects }
        ensures within { length self.now.objects < 2 ^ 32 }
        ensures tallies { AreTalliesOf self.now.objects self.now.tallies }
    {
        // What a table keeps is known where a field is named.
        let _ = &self.slots;
    }

    /// Says that the ids of the objects fit 64 bits. It does nothing.
    pub fn ids_fit(&self)
        ensures { AllByRecursion (λ object. object.id < 2 ^ 64) self.now.objects }
    {
        prove!(self.greatest_id() <= u64::MAX);
    }

    /// All objects, in rising id.
    pub fn objects(&self) -> Objects<'_>
        ensures all { result ≡ self.now.objects }
        ensures rising { IsRising result }
        ensures within { length result < 2 ^ 32 }
        ensures runs { ShowsInOrder (deref {X = Object}) }
        ensures tallies { AreTalliesOf result self.now.tallies }
    {
        self.stands_in_order();
        Objects::of(&self.slots, &self.order)
    }

    /// The object at a place, from 0 on.
    pub fn nth(&self, i: u32) -> Option<&Object>
        ensures { option_copied result ≡ slice_get self.now.objects i }
    {
        let slot = self.order.get(i as usize)?;
        Some(&self.slots[*slot as usize])
    }

    /// The greatest id of the objects, and 0 where there are none.
    pub fn greatest_id(&self) -> u64
        ensures { result ≡ greatest_id self.now.objects }
    {
        self.stands_in_order();
        match self.nth(self.len().saturating_sub(1)) {
            Some(object) => object.id,
            None => 0,
        }
    }

    /// The object of an id.
    pub fn get(&self, id: u64) -> Option<&Object>
        ensures { option_map (λ o. o.now) result ≡ find_object id self.now.objects }
    {
        let place = position(&self.slots, &self.order, id)?;
        Some(&self.slots[self.order[place] as usize])
    }

    /// The object of the least id that is at least this one.
    pub fn next_from(&self, id: u64) -> Option<&Object>
        ensures { option_map (λ o. o.now) result ≡ find_from id self.now.objects }
    {
        let place = place(&self.slots, &self.order, id);
        if place < self.order.len() {
            Some(&self.slots[self.order[place] as usize])
        } else {
            None
        }
    }

    /// The least id of a kind on a tile.
    pub fn at(&self, x: u8, y: u8, kind: Kind) -> Option<u64>
        ensures { result ≡ option_map (λ o. o.id) (first_on x y kind self.now.objects) }
    {
        let tile = tile_of(x, y);
        if tile < TILES {
            least_on(&self.tiles, &self.slots, tile, kind)
        } else {
            search(&self.slots, &self.order, x, y, kind)
        }
    }

    /// The object of the least id on a tile that is at least this one. It takes a walk along what stands on
    /// the tile.
    pub fn next_on(&self, x: u8, y: u8, id: u64) -> Option<&Object>
        ensures { option_map (λ o. o.now) result ≡ first_on_from x y id self.now.objects }
    {
        let tile = tile_of(x, y);
        if tile < TILES {
            next_of_tile(&self.tiles, &self.slots, tile, id)
        } else {
            search_next(&self.slots, &self.order, x, y, id)
        }
    }

    /// The controller of the room, that of the least id if there were more. Its slot is kept, so that
    /// the answer takes no search.
    pub fn controller(&self) -> Option<&Object>
        ensures { option_map (λ o. o.now) result ≡ controller_among self.now.objects }
    {
        let slot = self.controller?;
        Some(&self.slots[slot as usize])
    }

    /// Whether a tile is barred to a player. Under the first rules no tile is.
    pub fn barred(&self, x: u8, y: u8, player: u32) -> bool
        ensures { result ≡ is_barred x y player self.now.objects }
    {
        false
    }

    /// Whether something on a tile obstructs a player's creeps. Under the first rules it is the same for all
    /// players.
    pub fn obstructed(&self, x: u8, y: u8, player: u32) -> bool
        ensures { result ≡ is_obstructed x y player self.now.objects }
    {
        self.stands(x, y, Kind::Source)
            | self.stands(x, y, Kind::Controller)
            | self.stands(x, y, Kind::Spawn)
            | self.stands(x, y, Kind::Extension)
            | self.stands(x, y, Kind::Storage)
    }

    /// Whether a site may be made on a tile, as far as sources, controllers, buildings and sites stand in its
    /// way. Under the first rules it is the same for sites of all kinds.
    pub fn site_free(&self, x: u8, y: u8, kind: Kind) -> bool
        ensures { result ≡ is_site_free x y kind self.now.objects }
    {
        !(self.obstructed(x, y, 0)
            | self.stands(x, y, Kind::Container)
            | self.stands(x, y, Kind::Road)
            | self.stands(x, y, Kind::Site))
    }

    // Whether an object of a kind stands on a tile.
    #[tactic(auto, using(crate::proofs::Obstructed::kind_any))]
    fn stands(&self, x: u8, y: u8, kind: Kind) -> bool
        ensures { result ≡ list_any (is_kind_on x y kind) self.now.objects }
    {
        self.at(x, y, kind).is_some()
    }

    /// Whether a player, or nobody by the number 0, owns an object here.
    pub fn has_owner(&self, player: u32) -> bool
        ensures { result ≡ list_any (λ o. o.owner == player) self.now.objects }
    {
        self.owners.may_have(player) && has_owned(&self.slots, &self.order, player)
    }

    /// How many more objects it takes without memory.
    pub fn spare(&self) -> u32
        ensures spare { result ≡ self.now.spare }
        ensures within { length self.now.objects + result < 2 ^ 32 }
    {
        self.spare
    }

    /// The number of the rules in force.
    pub fn rules(&self) -> u8
        ensures { result ≡ 1 }
    {
        1
    }

    /// The same table once more, with memory for `spare` more objects.
    pub fn copy(&self, alloc: Global, spare: u64) -> Result<RoomTable, AllocError>
        requires { length self.now.objects + spare < 2 ^ 32 }
        ensures { IfOk result (λ copy. copy ≡ record self.now { spare = spare }) }
    {
        let slots = copied(alloc, &self.slots, &self.order, spare as usize)?;
        let tallies = copied_tallies(alloc, &self.tallies, &self.order, spare as usize)?;
        RoomTable::filled(
            alloc,
            self.index,
            self.next,
            slots,
            tallies,
            spare as u32,
            self.owners,
        )
    }

    /// Takes memory for `n` more objects, where it doesn't have as much.
    pub fn reserve(&mut self, n: u64) -> Result<(), AllocError>
        requires { length self.old.objects + n < 2 ^ 32 }
        ensures ok { OnOk result (self.new ≡ record self.old { spare = max self.old.spare n }) }
        ensures err { OnErr result (self.new ≡ self.old) }
    {
        // A slot is counted by a u32, and those that are empty count too.
        if self.slots.len() as u64 + n > u64::from(u32::MAX) {
            return Err(AllocError);
        }
        self.slots.reserve(n as usize)?;
        self.order.reserve(n as usize)?;
        self.tiles.reserve(n as usize)?;
        self.tallies.reserve(n as usize)?;
        self.spare = self.spare.max(n as u32);
        Ok(())
    }

    /// Puts an object in the place of the one of its id.
    pub fn set(&mut self, object: Object)
        requires tile { IsOnTile object }
        requires there { HasId object.id self.old.objects }
        ensures { self.new ≡ record self.old { objects = with_object object self.old.objects } }
    {
        let slot = slot_of(&self.slots, &self.order, object.id);
        let was = self.slots[slot as usize].kind;
        let stays = stays(self.controller, slot, was, object.kind);
        self.owners.add(object.owner);
        self.tiles.shift(slot, tile_of(object.x, object.y));
        self.slots[slot as usize] = object;
        self.controller = kept_or_sought(self.controller, stays, &self.slots, &self.order);
    }

    /// Adds an object.
    pub fn insert(&mut self, object: Object)
        requires tile { IsOnTile object }
        requires absent { HasNoId object.id self.old.objects }
        requires room { 1 ≤ self.old.spare }
        ensures { self.new ≡ record self.old {
          objects = with_new object self.old.objects;
          spare = self.old.spare - 1;
        } }
    {
        let place = place(&self.slots, &self.order, object.id);
        let slot = self.slots.len() as u32;
        let stays = !is_controller(object.kind);
        self.owners.add(object.owner);
        self.tiles.add(tile_of(object.x, object.y));
        self.order.insert(place, slot).unwrap();
        self.slots.push(object).unwrap();
        self.tallies.push(Tally::NONE).unwrap();
        self.controller = kept_or_sought(self.controller, stays, &self.slots, &self.order);
        self.spare -= 1;
    }

    /// Adds a new object, under the next serial of this room, and answers its id. The id that the
    /// object has is not used.
    pub fn insert_new(&mut self, object: Object) -> u64
        requires tile { IsOnTile object }
        requires serial { self.old.next < 2 ^ 32 - 1 }
        requires absent { HasNoId (self.old.index * 2 ^ 32 + self.old.next) self.old.objects }
        requires room { 1 ≤ self.old.spare }
        ensures id { result ≡ self.old.index * 2 ^ 32 + self.old.next }
        ensures table { self.new ≡ record self.old {
          next = self.old.next + 1;
          objects = with_new (record object { id = result }) self.old.objects;
          spare = self.old.spare - 1;
        } }
    {
        let id = u64::from(self.index) * SERIALS + u64::from(self.next);
        self.next += 1;
        self.insert(Object { id, ..object });
        id
    }

    /// Takes the object of an id out, with what was done to it. Its memory isn't kept for another.
    pub fn remove(&mut self, id: u64) -> Option<Object>
        ensures removed { result ≡ find_object id self.old.objects }
        ensures table { self.new ≡ removed id self.old }
    {
        let place = position(&self.slots, &self.order, id)?;
        let slot = self.order.remove(place);
        self.tiles.take(slot);
        let removed = self.slots[slot as usize];
        let stays = !is_controller(removed.kind);
        self.controller = kept_or_sought(self.controller, stays, &self.slots, &self.order);
        Some(removed)
    }

    /// The id of the object for which what is done to this one counts. Under the first rules each counts for
    /// itself.
    pub fn cover(&self, id: u64) -> u64
        ensures { result ≡ cover_of id self.now.objects }
    {
        id
    }

    /// Adds damage to an object, up to 2^32 - 1 in all.
    pub fn add_damage(&mut self, id: u64, n: u32)
        requires there { HasId (cover_of id self.old.objects) self.old.objects }
        ensures { self.new
            ≡ record self.old { tallies = damaged (cover_of id self.old.objects) n self.old.tallies } }
    {
        let covering = self.cover(id);
        let slot = slot_of(&self.slots, &self.order, covering);
        let tally = self.tallies[slot as usize];
        self.tallies[slot as usize] = Tally {
            damage: tally.damage.saturating_add(n),
            ..tally
        };
    }

    /// Adds healing to an object, up to 2^32 - 1 in all.
    pub fn add_healing(&mut self, id: u64, n: u32)
        requires there { HasId id self.old.objects }
        ensures { self.new ≡ record self.old { tallies = healed id n self.old.tallies } }
    {
        let slot = slot_of(&self.slots, &self.order, id);
        let tally = self.tallies[slot as usize];
        self.tallies[slot as usize] = Tally {
            healing: tally.healing.saturating_add(n),
            ..tally
        };
    }

    /// The damage that was done to the object of an id, and 0 where there is none.
    pub fn damage(&self, id: u64) -> u32
        ensures { result ≡ (tally_of id self.now.tallies).damage }
    {
        self.tally(id).damage
    }

    /// The healing of the object of an id, and 0 where there is none.
    pub fn healing(&self, id: u64) -> u32
        ensures { result ≡ (tally_of id self.now.tallies).healing }
    {
        self.tally(id).healing
    }

    // What was done to the object of an id.
    fn tally(&self, id: u64) -> Tally
        ensures { result ≡ tally_of id self.now.tallies }
    {
        match position(&self.slots, &self.order, id) {
            Some(place) => self.tallies[self.order[place] as usize],
            None => Tally::NONE,
        }
    }

    /// What was done to the object at a place, from 0 on. It takes no search.
    pub fn nth_tally(&self, i: u32) -> Tally
        requires { i < length self.now.objects }
        ensures { (object : Object) → slice_get self.now.objects i ≡ Some object
            → result ≡ tally_of object.id self.now.tallies }
    {
        self.tallies[self.order[i as usize] as usize]
    }

    /// Forgets what was done to all objects.
    pub fn clear_sums(&mut self)
        ensures { self.new ≡ record self.old { tallies = no_tallies } }
    {
        clear(&mut self.tallies);
    }
}

// How many ids belong to a room.
const SERIALS: u64 = 1 << 32;
