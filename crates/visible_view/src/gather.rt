// What a player sees, gathered room by room.
ghost use Rattle.std.specs.Prelude.{◌≡◌, ◌+◌, ◌<◌, ◌≤◌, ◌^◌, ◌++◌, [], ◌∷◌, length, OnOk, IfOk};
ghost use Rattle.std.specs.List.{count_by, list_any};
ghost use Rattle.game_tables.specs.Limits.{most_rooms};
ghost use Rattle.world_rules.specs.Sights.{gives_sight};
ghost use Rattle.visible_view.specs.inner.Gathered.{is_flagged as flagged, is_controller_of, is_site_of};
ghost use Rattle.visible_view.specs.inner.Gathered.{IsAdded, IsGathered};
ghost use Rattle.visible_view.specs.inner.Places.{flagged_from};

use crate::NoMemory;
use game_tables::{is_controller, is_site};
use object_store::{Objects, Room, RoomTable, Standing};
use std::alloc::Global;
use world_rules::gives_sight;

/// A room that is seen.
#[derive(Clone, Copy)]
pub struct RoomInView<'a> {
    pub index: u32,
    pub room: &'a Room,
}

/// What is seen of some rooms: those that are seen in rising index, a flag for each room whether it
/// is seen, and the numbers of the player's sites and controllers in all rooms.
#[derive(Drop)]
pub struct Gathered<'a> {
    pub rooms: Vec<RoomInView<'a>>,
    pub flags: Vec<bool>,
    pub sites: u64,
    pub controllers: u64,
}

/// Gathers what a player sees of the rooms.
pub fn gather<'a>(alloc: Global, rooms: &'a [Room], player: u32) -> Result<Gathered<'a>, NoMemory>
    requires { length rooms.now ≤ most_rooms }
    ensures { IfOk result (IsGathered player rooms.now) }
{
    let mut gathered = Gathered {
        rooms: Vec::new(alloc),
        flags: Vec::new(alloc),
        sites: 0,
        controllers: 0,
    };
    for (index, room) in rooms.iter().enumerate() {
        gathered.add(index as u32, room, player)?;
    }
    Ok(gathered)
}

/// The places of the objects whose rooms are flagged, in rising order. Memory is taken once, for as many
/// as there are objects.
pub fn flagged_places(alloc: Global, all: &[Standing], flags: &[bool]) -> Result<Vec<u32>, NoMemory>
    requires { length all.now < 2 ^ 32 }
    ensures { IfOk result (λ places. places.items ≡ flagged_from flags.now 0 all.now) }
{
    let mut places = Vec::with_capacity(alloc, all.len())?;
    for (place, standing) in all.iter().enumerate() {
        if is_flagged(flags, standing) {
            places.push_reserved(place as u32);
        }
    }
    Ok(places)
}

fn is_flagged(flags: &[bool], standing: &Standing) -> bool
    ensures { result ≡ flagged flags.now standing.now }
{
    matches!(flags.get(standing.room as usize), Some(true))
}

impl<'a> Gathered<'a> {
    // Adds what is seen of a room, and the player's sites and controllers there.
    fn add(&mut self, index: u32, room: &'a Room, player: u32) -> Result<(), NoMemory>
        requires sites { self.old.sites < 2 ^ 63 }
        requires controllers { self.old.controllers < 2 ^ 63 }
        ensures added { OnOk result (IsAdded player index room.now self.old self.new) }
        ensures few_sites { OnOk result (self.new.sites < self.old.sites + 2 ^ 32) }
        ensures few_controllers { OnOk result (self.new.controllers < self.old.controllers + 2 ^ 32) }
    {
        let found = tally(&room.table, player);
        self.sites += found.sites;
        self.controllers += found.controllers;
        self.flags.push(found.is_seen)?;
        if found.is_seen {
            self.rooms.push(RoomInView { index, room })?;
        }
        Ok(())
    }
}

// What one pass over a room's objects tells.
#[derive(Clone, Copy)]
struct Tallied {
    is_seen: bool,
    sites: u64,
    controllers: u64,
}

// Whether the player sees a room, and how many sites and controllers he has there.
fn tally(table: &RoomTable, player: u32) -> Tallied
    ensures seen { result.is_seen ≡ list_any (gives_sight player) table.now.objects }
    ensures sites { result.sites ≡ count_by (is_site_of player) table.now.objects }
    ensures controllers { result.controllers ≡ count_by (is_controller_of player) table.now.objects }
    ensures few { (result.sites < 2 ^ 32) × (result.controllers < 2 ^ 32) }
{
    if table.has_owner(player) {
        tally_objects(table.objects(), player)
    } else {
        Tallied {
            is_seen: false,
            sites: 0,
            controllers: 0,
        }
    }
}

fn tally_objects(objects: Objects<'_>, player: u32) -> Tallied
    requires { length objects < 2 ^ 32 }
    ensures seen { result.is_seen ≡ list_any (gives_sight player) objects.entry }
    ensures sites { result.sites ≡ count_by (is_site_of player) objects.entry }
    ensures controllers { result.controllers ≡ count_by (is_controller_of player) objects.entry }
    ensures few { (result.sites ≤ length objects.entry) × (result.controllers ≤ length objects.entry) }
{
    let mut found = Tallied {
        is_seen: false,
        sites: 0,
        controllers: 0,
    };
    for object in objects {
        if object.owner == player {
            found.is_seen |= gives_sight(object, player);
            found.sites += u64::from(is_site(object.kind));
            found.controllers += u64::from(is_controller(object.kind));
        }
    }
    found
}
