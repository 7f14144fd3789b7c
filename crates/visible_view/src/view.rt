// What a player sees of the world, made once for a run and asked at every host call.
ghost use Rattle.std.specs.Prelude.{◌≡◌, ◌==◌, ◌≤◌, ◌<◌, ◌^◌, [], length, map, slice_get, Option, Some, None};
ghost use Rattle.std.specs.Prelude.{option_map, IfSome, IfNone, IfOk};
ghost use Rattle.std.specs.List.{find};
ghost use Rattle.std.specs.Option.{unwrap_or};
ghost use Rattle.std.specs.List.Sorted.{IsPartitionPoint};
ghost use Rattle.game_tables.specs.Limits.{most_rooms};
ghost use Rattle.object_store.specs.declared.account.Account.{Account};
ghost use Rattle.object_store.specs.Stored.{HasAccount, find_account};
ghost use Rattle.room_table.specs.Stores.{capacity_as};
ghost use Rattle.room_table.proofs.Rising.{Rises};
ghost use Rattle.world_rules.specs.Sound.{IsSound};
ghost use Rattle.world_rules.specs.World.{shown, world_of};
ghost use Rattle.visible_view.specs.Sights.{controller_count, sight_of};
ghost use Rattle.visible_view.specs.Fields.{controller_at, field_at, field_of as told_field, ground_at};
ghost use Rattle.visible_view.specs.Fields.{objects_at, place_of, room_at, room_place as place_of_room};
ghost use Rattle.visible_view.specs.inner.Gathered.{index_in};
ghost use Rattle.visible_view.specs.inner.Places.{objects_of};

use crate::NoMemory;
use crate::field::{ground_of, part_field};
use crate::gather::{RoomInView, flagged_places, gather};
use crate::listed::{Listed, position_of, standing_at};
use game_tables::hits_max;
use object_store::{
    Account, Ground, Object, RoomName, RoomTable, Standing, Terrain, World, capacity,
};
use std::alloc::Global;
use std::marker::Model;
use world_roster::Roster;

/// What a player sees of a world: the rooms in which a creep, a building or a controller of his
/// stands, with all that is in them, his account, and the number of his sites in all rooms.
///
/// It is made once a run and refers to the world, of whose objects, as they are listed once a tick, it
/// keeps only the places of those that are seen. Its calls take no memory. One by an id or by a
/// room's index halves what is seen until it is found; one by a place takes always the same time,
/// but for a capacity, which asks for the room's controller or counts a creep's live parts.
pub struct View<'a> {
    tick: u64,
    account: &'a Account,
    sites: u32,
    controllers: u32,
    rooms: Vec<RoomInView<'a>>,
    listed: Listed<'a>,
    places: Vec<u32>,
}

impl Drop for View<'_> {
    fn drop(self) {
        let View {
            tick: _,
            account: _,
            sites: _,
            controllers: _,
            rooms: _,
            listed: _,
            places: _,
        } = self;
    }
}

impl<'a> Model for View<'a> {
    ghost use Rattle.std.specs.Prelude.{map};
    ghost use Rattle.visible_view.specs.Sights.{Sight};
    ghost use Rattle.visible_view.specs.inner.Gathered.{shown_room};
    ghost use Rattle.visible_view.specs.inner.Places.{all_of, at_places, IsKept};

    ghost Value = { Sight };

    ghost view = { λ v. record {
      tick = v.tick;
      account = v.account.now;
      sites = v.sites;
      rooms = map shown_room v.rooms.items;
      objects = at_places (all_of v.listed) v.places.items;
    } };

    ghost invariant = { λ v. IsKept v.account.now.player v.controllers v.rooms.items (all_of v.listed)
        v.places.items };
}

impl<'a> View<'a> {
    /// What the player sees.
    pub fn of(alloc: Global, world: &'a World, player: u32) -> Result<View<'a>, NoMemory>
        requires account { HasAccount player world.now.accounts }
        requires sound { IsSound world.now }
        requires rooms { length world.now.rooms ≤ most_rooms }
        ensures { IfOk result
            (λ view. (account : Account) × (find_account player world.now.accounts ≡ Some account)
            × (view ≡ sight_of (world_of world.now) account)) }
    {
        let roster = Roster::of(alloc, world)?;
        View::by(alloc, world, Listed::Own(roster), player)
    }

    /// What the player sees, by the world's objects in rising id, as they are listed once for all
    /// players. It takes one pass over them, and keeps their places alone.
    pub fn among(
        alloc: Global,
        world: &'a World,
        roster: &'a Roster<'a>,
        player: u32,
    ) -> Result<View<'a>, NoMemory>
        requires account { HasAccount player world.now.accounts }
        requires sound { IsSound world.now }
        requires rooms { length world.now.rooms ≤ most_rooms }
        requires roster { roster.now ≡ (world_of world.now).objects }
        ensures { IfOk result
            (λ view. (account : Account) × (find_account player world.now.accounts ≡ Some account)
            × (view ≡ sight_of (world_of world.now) account)) }
    {
        View::by(alloc, world, Listed::Lent(roster), player)
    }

    // What the player sees, by the world's objects.
    fn by(
        alloc: Global,
        world: &'a World,
        listed: Listed<'a>,
        player: u32,
    ) -> Result<View<'a>, NoMemory>
        requires account { HasAccount player world.now.accounts }
        requires sound { IsSound world.now }
        requires rooms { length world.now.rooms ≤ most_rooms }
        requires listed { objects_of listed ≡ (world_of world.now).objects }
        ensures { IfOk result
            (λ view. (account : Account) × (find_account player world.now.accounts ≡ Some account)
            × (view ≡ sight_of (world_of world.now) account)) }
    {
        let account = world.account(player).unwrap();
        let seen = gather(alloc, world.room_list(), player)?;
        let places = flagged_places(alloc, listed.list(), &seen.flags)?;
        Ok(View {
            tick: world.tick(),
            account,
            sites: seen.sites as u32,
            controllers: seen.controllers as u32,
            rooms: seen.rooms,
            listed,
            places,
        })
    }

    /// The tick at which it is seen.
    pub fn tick(&self) -> u64
        ensures { result ≡ self.now.tick }
    {
        self.tick
    }

    /// The player's account.
    pub fn account(&self) -> &Account
        ensures { result.now ≡ self.now.account }
    {
        self.account
    }

    /// The number of the player's sites in the whole world.
    pub fn sites(&self) -> u32
        ensures { result ≡ self.now.sites }
    {
        self.sites
    }

    /// How many controllers the player owns. He sees each of them.
    pub fn controllers(&self) -> u32
        ensures { result ≡ controller_count self.now }
    {
        self.controllers
    }

    /// The number of objects.
    pub fn count(&self) -> u32
        ensures { result ≡ length self.now.objects }
    {
        self.places.len() as u32
    }

    /// The object at a place among those that are seen, from 0 on, in rising id.
    pub fn object(&self, index: u32) -> Option<&Object>
        ensures { option_map (λ object. object.now) result ≡ option_map (λ placed. placed.object)
            (slice_get self.now.objects index) }
    {
        let standing = self.standing(index)?;
        Some(standing.object)
    }

    /// The object at a place, with its room.
    pub fn standing(&self, index: u32) -> Option<Standing<'_>>
        ensures { option_map (λ standing. shown standing) result ≡ slice_get self.now.objects index }
    {
        let place = *self.places.get(index as usize)?;
        standing_at(self.listed.list(), place)
    }

    /// The place of an object of this id.
    pub fn find(&self, id: u64) -> Option<u32>
        ensures { result ≡ place_of id self.now.objects }
    {
        let index = position_of(self.listed.list(), &self.places, id) as u32;
        match self.standing(index) {
            Some(standing) if standing.object.id == id => Some(index),
            _ => None,
        }
    }

    /// The number of rooms.
    pub fn room_count(&self) -> u32
        ensures { result ≡ length self.now.rooms }
    {
        self.rooms.len() as u32
    }

    /// The index of the room at a place among those that are seen, from 0 on, in rising index.
    pub fn room(&self, i: u32) -> Option<u32>
        ensures { result ≡ option_map (λ room. room.index) (slice_get self.now.rooms i) }
    {
        let seen = self.rooms.get(i as usize)?;
        Some(seen.index)
    }

    /// The place of a room among those that are seen, from 0 on, by its index in the world.
    pub fn place(&self, room: u32) -> Option<u32>
        ensures { result ≡ place_of_room room self.now.rooms }
    {
        let place = room_place(&self.rooms, room);
        match self.rooms.get(place) {
            Some(seen) if seen.index == room => Some(place as u32),
            _ => None,
        }
    }

    /// The grounds of the room at a place among those that are seen.
    pub fn terrain_at(&self, place: u32) -> Option<&'a Terrain>
        ensures { option_map (λ terrain. terrain.now) result
            ≡ option_map (λ seen. seen.grounds) (slice_get self.now.rooms place) }
    {
        Some(&self.rooms.get(place as usize)?.room.terrain)
    }

    /// The table of the room at a place among those that are seen.
    pub fn table_at(&self, place: u32) -> Option<&'a RoomTable>
        ensures { option_map (λ table. table.now.objects) result
            ≡ option_map (λ seen. objects_at self.now seen.index) (slice_get self.now.rooms place) }
    {
        Some(&self.rooms.get(place as usize)?.room.table)
    }

    /// The name of a room, by its index in the world.
    pub fn name(&self, room: u32) -> Option<RoomName>
        ensures { result ≡ option_map (λ room. room.name) (room_at self.now room) }
    {
        let seen = room_of(&self.rooms, room)?;
        Some(seen.room.name)
    }

    /// The ground of a tile of a room, by the room's index in the world.
    pub fn ground(&self, room: u32, x: u32, y: u32) -> Option<Ground>
        ensures { result ≡ ground_at self.now room x y }
    {
        let seen = room_of(&self.rooms, room)?;
        ground_of(&seen.room.terrain, x, y)
    }

    /// The table of a room, by the room's index in the world: of a room that is seen, and of no other.
    /// In a room without one nothing is seen.
    pub fn table(&self, room: u32) -> Option<&'a RoomTable>
        ensures seen { option_map (λ table. table.now.objects) result
            ≡ option_map (λ seen. objects_at self.now room) (room_at self.now room) }
        ensures objects { unwrap_or (option_map (λ table. table.now.objects) result) []
            ≡ objects_at self.now room }
    {
        let seen = room_of(&self.rooms, room)?;
        Some(&seen.room.table)
    }

    /// A field of the object at a place: 0 its id, 1 its kind's number, 2 its room, 3 and 4 its tile,
    /// 5 its owner, 6 its hits and 7 the most of them, 8 its energy and 9 the most of it, 10 its
    /// timer, 11 its level, fatigue or kind to be built, 12 its progress, 13 who reserves it and 14
    /// for how many ticks, 15 the number of its parts, and from 100 on the parts, each by its
    /// number times 1,000 and its hits.
    pub fn field(&self, index: u32, field: u32) -> Option<u64>
        ensures { result ≡ field_at self.now index field }
    {
        let placed = self.standing(index)?;
        self.field_of(&placed, field)
    }

    fn field_of(&self, placed: &Standing, field: u32) -> Option<u64>
        ensures { result ≡ told_field self.now (shown placed.now) field }
    {
        let object = placed.object;
        match field {
            0 => Some(object.id),
            1 => Some(u64::from(object.kind.number())),
            2 => Some(u64::from(placed.room)),
            3 => Some(u64::from(object.x)),
            4 => Some(u64::from(object.y)),
            5 => Some(u64::from(object.owner)),
            6 => Some(u64::from(object.hits)),
            7 => Some(u64::from(hits_max(object.kind, &object.body))),
            8 => Some(object.energy),
            9 => Some(self.capacity(placed)),
            10 => Some(u64::from(object.timer)),
            11 => Some(u64::from(object.extra)),
            12 => Some(object.progress),
            13 => Some(u64::from(object.other)),
            14 => Some(u64::from(object.other_ticks)),
            15 => Some(object.body.len()),
            100.. => part_field(object, field - 100),
            _ => None,
        }
    }

    // The energy that an object holds.
    fn capacity(&self, placed: &Standing) -> u64
        ensures { result
            ≡ capacity_as placed.now.object.now.kind
            (controller_at self.now placed.now.room) placed.now.object.now }
    {
        capacity(placed.object, self.controller(placed.room))
    }

    // The controller of a room that is seen.
    fn controller(&self, room: u32) -> Option<&Object>
        ensures { option_map (λ object. object.now) result ≡ controller_at self.now room }
    {
        room_of(&self.rooms, room)?.room.table.controller()
    }
}

// The place of an index among the rooms, or where it would be.
fn room_place(rooms: &[RoomInView], index: u32) -> usize
    requires { Rises index_in rooms.now }
    ensures within { result ≤ length rooms.now }
    ensures between { IsPartitionPoint (λ room. room.index < index)
        (λ room. index ≤ room.index) rooms.now result }
{
    rooms.partition_point(|room| room.index < index)
}

// The room of an index.
fn room_of<'a>(rooms: &[RoomInView<'a>], index: u32) -> Option<RoomInView<'a>>
    requires { Rises index_in rooms.now }
    ensures { result ≡ find (λ room. room.index == index) rooms.now }
{
    match rooms.get(room_place(rooms, index)) {
        Some(room) if room.index == index => Some(*room),
        _ => None,
    }
}
