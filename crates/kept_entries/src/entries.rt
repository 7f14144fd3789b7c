// The entries that count.
ghost use Rattle.std.specs.Prelude.{◌≡◌, ◌/◌, true, false, reverse, take, IfOk, OnOk, IfSome, IfNone, ◌||◌};
ghost use Rattle.std.specs.FinMap.{contains_key};
ghost use Rattle.std.specs.List.{filter, list_any, prefix_len};
ghost use Rattle.std.specs.List.Sorted.{IsStrictlySortedBy};
ghost use Rattle.world_rules.specs.World.{world_of};
ghost use Rattle.world_rules.specs.Sound.{IsSound};
ghost use Rattle.world_rules.specs.Intents.{acts_for, fits, last_of_each, may_act as can_act, names_tile};
ghost use Rattle.world_rules.specs.Intents.{overrules as does_overrule, room_of, undropped};
ghost use Rattle.kept_entries.specs.Turns.{AreKept, in_turn};
ghost use Rattle.kept_entries.specs.inner.Choosing.{Makes, Runs, StandFor, by_action, by_actor, entry_cmp};
ghost use Rattle.kept_entries.specs.inner.Choosing.{has_actor_of, key as key_of, object_in, overrules_it};
ghost use Rattle.kept_entries.specs.inner.Choosing.{room_in};

use crate::NoMemory;
use game_tables::{Action, Kind, dominates};
use intent_book::Intent;
use object_store::{Object, World};
use std::alloc::Global;
use world_roster::Roster;

/// An entry that counts, and the index of the room of its actor.
#[derive(Clone, Copy)]
pub struct Entry {
    pub room: u32,
    pub intent: Intent,
}

impl Entry {
    // By player, then by actor, then by action.
    fn key(&self) -> (u32, u64, u8)
        ensures { result ≡ key_of self.now.intent }
    {
        let intent = &self.intent;
        (intent.player, intent.actor, intent.action.number())
    }
}

/// The entries that count, in the order in which a tick rules them: by action, then by player, then by
/// actor. Of those that fit the world the last of each player, action and actor counts, unless another
/// entry of the same creep overrules it.
///
/// It takes time by the entries, each of which is looked up by halving, and by two sorts of those that fit.
pub fn kept_entries(
    alloc: Global,
    world: &World,
    roster: &Roster,
    intents: &[Intent],
) -> Result<Vec<Entry>, NoMemory>
    requires sound { IsSound world.now }
    requires roster { roster.now ≡ (world_of world.now).objects }
    ensures { IfOk result (λ entries. AreKept (world_of world.now) intents.now entries.items) }
{
    let entries = fitting(alloc, world, roster, intents)?;
    counting(alloc, entries)
}

/// Those of the entries that count, in their turn.
pub(crate) fn counting(alloc: Global, mut entries: Vec<Entry>) -> Result<Vec<Entry>, NoMemory>
    ensures { IfOk result (λ kept. Makes (λ intents. in_turn (undropped (last_of_each intents)))
        entries.items kept.items) }
{
    keep_last(&mut entries)?;
    let mut kept = without_overruled(alloc, &entries)?;
    put_in_turn(&mut kept)?;
    Ok(kept)
}

// The entries that fit the world, as they came.
fn fitting(
    alloc: Global,
    world: &World,
    roster: &Roster,
    intents: &[Intent],
) -> Result<Vec<Entry>, NoMemory>
    requires { roster.now ≡ (world_of world.now).objects }
    ensures { IfOk result (λ entries. StandFor (room_of (world_of world.now)) entries.items
        (filter (fits (world_of world.now)) intents.now)) }
{
    let mut entries = Vec::new(alloc);
    for intent in intents {
        if let Some(room) = fitting_room(world, roster, intent) {
            entries.push(Entry {
                room,
                intent: *intent,
            })?;
        }
    }
    Ok(entries)
}

// The room of an entry that fits the world.
fn fitting_room(world: &World, roster: &Roster, intent: &Intent) -> Option<u32>
    requires { roster.now ≡ (world_of world.now).objects }
    ensures some { IfSome result (λ room. (fits (world_of world.now) intent.now ≡ true)
        × (room_of (world_of world.now) intent.now ≡ Some room)) }
    ensures none { IfNone result (fits (world_of world.now) intent.now ≡ false) }
{
    if intent.player == 0 {
        return None;
    }
    if is_of_tile(intent.action) {
        tile_room(world, intent.actor)
    } else {
        object_room(roster, intent)
    }
}

/// Whether the actor of the action is a tile.
pub(crate) fn is_of_tile(action: Action) -> bool
    ensures { result ≡ names_tile action }
{
    matches!(action, Action::CreateSite)
}

// The room of a tile, where it is in the world.
fn tile_room(world: &World, tile: u64) -> Option<u32>
    ensures some { IfSome result (λ room. (contains_key (world_of world.now).rooms (tile / 2500) ≡ true)
        × (tile / 2500 ≡ room)) }
    ensures none { IfNone result (contains_key (world_of world.now).rooms (tile / 2500) ≡ false) }
{
    let room = tile / 2500;
    if room < u64::from(world.rooms()) {
        Some(room as u32)
    } else {
        None
    }
}

// The room of the object that is the actor, where it may act for the player.
fn object_room(roster: &Roster, intent: &Intent) -> Option<u32>
    ensures some { IfSome result (λ room. (acts_for intent.now (object_in roster.now intent.now.actor) ≡ true)
        × (room_in roster.now intent.now.actor ≡ Some room)) }
    ensures none { IfNone result (acts_for intent.now (object_in roster.now intent.now.actor) ≡ false) }
{
    match roster.get(intent.actor) {
        Some(standing) if may_act_for(intent, standing.object) => Some(standing.room),
        _ => None,
    }
}

/// Whether the object may be the entry's actor.
pub(crate) fn may_act_for(intent: &Intent, object: &Object) -> bool
    ensures { result ≡ acts_for intent.now (Some object.now) }
{
    may_act(intent.action, object.kind) && object.owner == intent.player
}

// Whether objects of the kind have the action.
fn may_act(action: Action, kind: Kind) -> bool
    ensures { result ≡ can_act action kind }
{
    match action {
        Action::RemoveSite => matches!(kind, Kind::Site),
        Action::SpawnCreep => matches!(kind, Kind::Spawn),
        _ => matches!(kind, Kind::Creep),
    }
}

// Keeps of the entries of one player, action and actor the last, and puts them by player, then by actor.
fn keep_last(entries: &mut Vec<Entry>) -> Result<(), NoMemory>
    ensures last { OnOk result (Makes (λ intents. by_actor (last_of_each intents))
        entries.old.items entries.new.items) }
    ensures order { OnOk result (IsStrictlySortedBy entry_cmp entries.new.items) }
{
    entries.reverse();
    entries.sort_by_key(|entry| entry.key())?;
    entries.dedup_by_key(|entry| entry.key());
    Ok(())
}

// The entries but for those that another overrules. Those of one actor stand side by side, so each is held
// against these alone, of which there are no more than there are actions.
fn without_overruled(alloc: Global, entries: &[Entry]) -> Result<Vec<Entry>, NoMemory>
    requires { IsStrictlySortedBy entry_cmp entries.now }
    ensures { IfOk result (λ kept. Makes undropped entries.now kept.items) }
{
    let mut kept = Vec::new(alloc);
    for (place, entry) in entries.iter().enumerate() {
        if !is_overruled(entry, &entries[..place], &entries[place..]) {
            kept.push(*entry)?;
        }
    }
    Ok(kept)
}

// Whether an entry before or behind overrules this one.
fn is_overruled(entry: &Entry, before: &[Entry], behind: &[Entry]) -> bool
    requires before { Runs (has_actor_of entry.now) (reverse before.now) }
    requires behind { Runs (has_actor_of entry.now) behind.now }
    ensures { result ≡ (list_any (overrules_it entry.now) before.now
        || list_any (overrules_it entry.now) behind.now) }
{
    is_overruled_before(entry, before) || is_overruled_behind(entry, behind)
}

// Whether one of the last entries of the same actor overrules it.
fn is_overruled_before(entry: &Entry, before: &[Entry]) -> bool
    ensures { result ≡ list_any (overrules_it entry.now)
        (take (prefix_len (has_actor_of entry.now) (reverse before.now)) (reverse before.now)) }
{
    before
        .iter()
        .rev()
        .take_while(|other| is_of_actor(entry, other))
        .any(|other| overrules(other, entry))
}

// Whether one of the first entries of the same actor overrules it.
fn is_overruled_behind(entry: &Entry, behind: &[Entry]) -> bool
    ensures { result ≡ list_any (overrules_it entry.now)
        (take (prefix_len (has_actor_of entry.now) behind.now) behind.now) }
{
    behind
        .iter()
        .take_while(|other| is_of_actor(entry, other))
        .any(|other| overrules(other, entry))
}

// Whether both are of one player and actor.
fn is_of_actor(entry: &Entry, other: &Entry) -> bool
    ensures { result ≡ has_actor_of entry.now other.now }
{
    other.intent.player == entry.intent.player && other.intent.actor == entry.intent.actor
}

// Whether the first entry overrules the second.
fn overrules(one: &Entry, other: &Entry) -> bool
    ensures { result ≡ does_overrule one.now.intent other.now.intent }
{
    is_of_actor(other, one) && dominates(one.intent.action, other.intent.action)
}

// Puts the entries by action, and leaves those of one action in their order.
fn put_in_turn(entries: &mut Vec<Entry>) -> Result<(), NoMemory>
    ensures { OnOk result (Makes by_action entries.old.items entries.new.items) }
{
    entries.sort_by_key(|entry| entry.intent.action.number())?;
    Ok(())
}
