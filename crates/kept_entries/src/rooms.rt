// The entries of rooms.
ghost use Rattle.std.specs.Prelude.{◌≡◌, [], List, map, length, replicate, IfOk, OnOk, Some};
ghost use Rattle.std.specs.List.{filter};
ghost use Rattle.room_terrain.specs.declared.terrain.Ground.{Ground};
ghost use Rattle.room_table.specs.Tables.{find_object};
ghost use Rattle.world_rules.specs.World.{world_of};
ghost use Rattle.world_rules.specs.Intents.{acts_for};
ghost use Rattle.world_rules.specs.RoomParts.{table_part};
ghost use Rattle.world_rules.specs.RoomTick.{fits_room, kept_in};
ghost use Rattle.kept_entries.specs.Split.{AreSplit};
ghost use Rattle.kept_entries.specs.Turns.{in_turn};
ghost use Rattle.kept_entries.specs.inner.Choosing.{StandFor};
ghost use Rattle.kept_entries.specs.inner.Splitting.{Adds, room_among};

use crate::NoMemory;
use crate::entries::{Entry, counting, is_of_tile, may_act_for};
use intent_book::{Intent, Intents};
use object_store::{RoomTable, World};
use std::alloc::Global;
use world_roster::Roster;

/// The entries that count in a room, in the order in which a tick rules them: by action, then by player,
/// then by actor. Of those whose actor is a tile of the room, or an object there that may act for their
/// player, the last of each player, action and actor counts, unless another entry of the same creep
/// overrules it.
///
/// It takes time by the entries, each of which is looked up by halving, and by two sorts of those that fit.
pub fn kept_in_room(
    alloc: Global,
    room: &RoomTable,
    intents: &[Intent],
) -> Result<Vec<Entry>, NoMemory>
    ensures { IfOk result (λ entries. (grounds : List Ground) → map (λ entry. entry.intent) entries.items
        ≡ in_turn (kept_in (table_part grounds room.now) intents.now)) }
{
    let entries = fitting_in_room(alloc, room, intents)?;
    counting(alloc, entries)
}

// The entries that fit the room, as they came. Its grounds tell nothing of what fits.
fn fitting_in_room(
    alloc: Global,
    room: &RoomTable,
    intents: &[Intent],
) -> Result<Vec<Entry>, NoMemory>
    ensures { IfOk result (λ entries. StandFor (λ intent. Some room.now.index) entries.items
        (filter (fits_room (table_part [] room.now)) intents.now)) }
{
    let mut entries = Vec::new(alloc);
    for intent in intents {
        if fits_in_room(room, intent) {
            entries.push(Entry {
                room: room.index(),
                intent: *intent,
            })?;
        }
    }
    Ok(entries)
}

// Whether the entry fits the room.
fn fits_in_room(room: &RoomTable, intent: &Intent) -> bool
    ensures { result ≡ fits_room (table_part [] room.now) intent.now }
{
    if intent.player == 0 {
        return false;
    }
    if is_of_tile(intent.action) {
        intent.actor / 2500 == u64::from(room.index())
    } else {
        acts_in_room(room, intent)
    }
}

// Whether the actor is an object of the room that may act for the player.
fn acts_in_room(room: &RoomTable, intent: &Intent) -> bool
    ensures { result ≡ acts_for intent.now (find_object intent.now.actor room.now.objects) }
{
    match room.get(intent.actor) {
        Some(object) => may_act_for(intent, object),
        None => false,
    }
}

/// The entries of a list, room by room: at the place of each room those whose actor is in it, as they
/// come. An entry whose actor is in no room is left out.
///
/// It takes time by the rooms and the entries, each of which is looked up by halving.
pub fn intents_by_room(
    alloc: Global,
    world: &World,
    roster: &Roster,
    intents: &[Intent],
) -> Result<Vec<Intents>, NoMemory>
    requires roster { roster.now ≡ (world_of world.now).objects }
    ensures rooms { IfOk result (λ lists. length lists.items ≡ length world.now.rooms) }
    ensures split { IfOk result (λ lists. AreSplit (world_of world.now) intents.now lists.items) }
{
    let mut lists = no_intents_by_room(alloc, world)?;
    for intent in intents {
        add_intent(&mut lists, roster, intent)?;
    }
    Ok(lists)
}

/// The same of no entries: an empty list for each room.
pub fn no_intents_by_room(alloc: Global, world: &World) -> Result<Vec<Intents>, NoMemory>
    ensures rooms { IfOk result (λ lists. length lists.items ≡ length world.now.rooms) }
    ensures split { IfOk result (λ lists. AreSplit (world_of world.now) [] lists.items) }
{
    empty_lists(alloc, world.rooms())
}

// So many empty lists.
fn empty_lists(alloc: Global, many: u32) -> Result<Vec<Intents>, NoMemory>
    ensures { IfOk result (λ lists. lists.items ≡ replicate many []) }
{
    let mut lists = Vec::with_capacity(alloc, many as usize)?;
    for _ in 0..many {
        lists.push(Intents::new(alloc))?;
    }
    Ok(lists)
}

// Adds an entry to the list of the room of its actor, where there is such a room.
fn add_intent(lists: &mut [Intents], roster: &Roster, intent: &Intent) -> Result<(), NoMemory>
    ensures { OnOk result (Adds roster.now intent.now lists.old lists.new) }
{
    match actor_room(roster, intent) {
        Some(room) if room < lists.len() as u64 => lists[room as usize].push(*intent),
        _ => Ok(()),
    }
}

// The room of an entry's actor. A tile's number may be past all rooms.
fn actor_room(roster: &Roster, intent: &Intent) -> Option<u64>
    ensures { result ≡ room_among roster.now intent.now }
{
    if is_of_tile(intent.action) {
        Some(intent.actor / 2500)
    } else {
        roster
            .get(intent.actor)
            .map(|standing| u64::from(standing.room))
    }
}
