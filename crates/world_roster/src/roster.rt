// The objects of a world by their id.
ghost use Rattle.std.specs.Prelude.{◌≡◌, ◌<◌, ◌≤◌, ◌^◌, ◌++◌, length, map, option_map, OnOk, IfOk};
ghost use Rattle.std.specs.FinMap.{get, entries};
ghost use Rattle.std.specs.List.Sorted.{IsNonDecreasingBy, IsPartitionPoint, IsPermutation};
ghost use Rattle.room_table.proofs.Rising.{Rises};
ghost use Rattle.world_rules.specs.World.{world_of, shown};
ghost use Rattle.world_rules.specs.Sound.{IsSound};
ghost use Rattle.world_roster.specs.Rosters.{shown_entry, id_in};
ghost use Rattle.world_roster.specs.inner.Listed.{placed_at, placed_among, standing_at};

use crate::NoMemory;
use object_store::{Objects, Room, Standing, World};
use std::alloc::Global;
use std::marker::Model;

/// All objects of a world in rising id, each with the index of its room.
///
/// It is made once a tick, by one sort, and refers to the world. An id is found by halving.
#[derive(Drop)]
pub struct Roster<'a> {
    all: Vec<Standing<'a>>,
}

impl<'a> Model for Roster<'a> {
    ghost use Rattle.std.specs.Prelude.{map};
    ghost use Rattle.std.specs.Coded.{coded_ℕ};
    ghost use Rattle.std.specs.FinMap.{code, from_entries};
    ghost use Rattle.room_table.proofs.Rising.{Rises};
    ghost use Rattle.world_rules.specs.World.{Objects};
    ghost use Rattle.world_roster.specs.Rosters.{shown_entry, id_in};
    ghost use Rattle.world_roster.specs.inner.Codes.{placed_code};

    ghost Value = { Objects };

    ghost coded = { code coded_ℕ placed_code };

    ghost view = { λ r. from_entries (map shown_entry r.all.items) };

    ghost invariant = { λ r. Rises id_in r.all.items };
}

impl<'a> Roster<'a> {
    /// The objects of a world.
    pub fn of(alloc: Global, world: &'a World) -> Result<Roster<'a>, NoMemory>
        requires { IsSound world.now }
        ensures { IfOk result (λ roster. roster ≡ (world_of world.now).objects) }
    {
        let all = ordered(alloc, world.room_list())?;
        Ok(Roster { all })
    }

    /// All of them, in rising id.
    pub fn list(&self) -> &[Standing<'a>]
        ensures all { map shown_entry result.now ≡ entries self.now }
        ensures rising { Rises id_in result.now }
    {
        &self.all
    }

    /// The object of an id, with its room.
    pub fn get(&self, id: u64) -> Option<Standing<'a>>
        ensures { option_map (λ standing. shown standing) result ≡ get self.now id }
    {
        standing_of(&self.all, id)
    }
}

// The object of an id among objects in rising id.
fn standing_of<'a>(all: &[Standing<'a>], id: u64) -> Option<Standing<'a>>
    requires rising { Rises id_in all.now }
    ensures { option_map (λ standing. shown standing) result ≡ standing_at id all.now }
{
    match all.get(place(all, id)) {
        Some(standing) if standing.object.id == id => Some(*standing),
        _ => None,
    }
}

// The place of an id among the objects, or where it would be.
fn place(all: &[Standing], id: u64) -> usize
    requires { Rises id_in all.now }
    ensures within { result ≤ length all.now }
    ensures between { IsPartitionPoint (λ standing. standing.object.now.id < id)
        (λ standing. id ≤ standing.object.now.id) all.now result }
{
    all.partition_point(|standing| standing.object.id < id)
}

/// All objects of the rooms, in an order in which no id falls.
pub(crate) fn ordered<'a>(alloc: Global, rooms: &'a [Room]) -> Result<Vec<Standing<'a>>, NoMemory>
    requires { length rooms.now < 2 ^ 32 }
    ensures same { IfOk result (λ all. IsPermutation (placed_among rooms.now) (map shown_entry all.items)) }
    ensures order { IfOk result (λ all. IsNonDecreasingBy id_in all.items) }
{
    let mut all = gather(alloc, rooms)?;
    all.sort_unstable_by_key(|standing| standing.object.id);
    Ok(all)
}

// All objects, room by room.
fn gather<'a>(alloc: Global, rooms: &'a [Room]) -> Result<Vec<Standing<'a>>, NoMemory>
    requires { length rooms.now < 2 ^ 32 }
    ensures { IfOk result (λ all. map shown_entry all.items ≡ placed_among rooms.now) }
{
    let mut all = Vec::new(alloc);
    for (index, room) in rooms.iter().enumerate() {
        add_objects(index as u32, room.table.objects(), &mut all)?;
    }
    Ok(all)
}

// Adds the objects of a room.
fn add_objects<'a>(
    room: u32,
    objects: Objects<'a>,
    all: &mut Vec<Standing<'a>>,
) -> Result<(), NoMemory>
    ensures { OnOk result (map shown_entry all.new.items ≡ map shown_entry all.old.items
        ++ placed_at room objects.entry) }
{
    for object in objects {
        all.push(Standing { room, object })?;
    }
    Ok(())
}
