// One room's tick.
ghost use Rattle.std.specs.Prelude.{◌≡◌, ◌↔◌, IsTrue, ◌<◌, ◌≤◌, ◌^◌, [], ◌∷◌, ◌++◌, List, length, max};
ghost use Rattle.std.specs.Prelude.{option_copied, slice_get, IfOk, OnOk, OnErr};
ghost use Rattle.std.specs.List.{AllByRecursion, filter};
ghost use Rattle.intent_book.specs.declared.intent.Intent.{Intent};
ghost use Rattle.kept_entries.specs.Turns.{in_turn};
ghost use Rattle.world_rules.specs.RoomParts.{table_part};
ghost use Rattle.world_rules.specs.RoomTick.{kept_in};
ghost use Rattle.world_rules.specs.Sound.{serials_bound};
ghost use Rattle.room_rules.specs.Within.{between};
ghost use Rattle.ruled_tick.specs.inner.Entered.{wanted_spare};
ghost use Rattle.room_step.specs.Stepping.{asked_for, HasAtMost, IsStepped, KeepsItsRules, StaysInRules};
ghost use Rattle.room_step.specs.inner.Course.{HasCome, HasGained, intents_in, is_move, points_entered};

use crate::NoMemory;
use exit_crossing::{Crosser, crossers};
use game_tables::Action;
use intent_book::{Intent, Intents};
use kept_entries::{Entry, kept_in_room};
use object_store::{RoomTable, Terrain};
use ruled_tick::{copied, rule, tick_table, widen};
use std::alloc::Global;
use std::marker::Model;

/// A list of creeps that are to cross.
#[derive(Drop)]
pub struct Crossers {
    list: Vec<Crosser>,
}

impl Model for Crossers {
    ghost use Rattle.std.specs.Prelude.{List};
    ghost use Rattle.exit_crossing.specs.declared.leaving.Crosser.{Crosser};

    ghost Value = { List Crosser };

    ghost view = { λ crossers. crossers.list.items };
}

impl Crossers {
    /// The empty list. It takes no memory before the first crosser.
    pub fn new(alloc: Global) -> Crossers
        ensures { result ≡ [] }
    {
        Crossers {
            list: Vec::new(alloc),
        }
    }

    /// The number of crossers.
    pub fn len(&self) -> u64
        ensures { result ≡ length self.now }
    {
        self.list.len() as u64
    }

    pub fn is_empty(&self) -> bool
        ensures { IsTrue result ↔ (self.now ≡ []) }
    {
        self.list.is_empty()
    }

    /// The crosser at a place, from 0 on.
    pub fn nth(&self, i: u64) -> Option<&Crosser>
        ensures { option_copied result ≡ slice_get self.now i }
    {
        self.list.get(i as usize)
    }

    /// Adds a crosser at the end.
    pub fn push(&mut self, entry: Crosser) -> Result<(), NoMemory>
        ensures ok { OnOk result (self.new ≡ self.old ++ entry ∷ []) }
        ensures err { OnErr result (self.new ≡ self.old) }
    {
        Ok(self.list.push(entry)?)
    }

    /// The whole list.
    pub fn as_slice(&self) -> &[Crosser]
        ensures { result.now ≡ self.now }
    {
        &self.list
    }
}

/// What a room's tick came to.
#[derive(Drop)]
pub struct StepDone {
    /// The table, in which no creep has moved any more, with memory for 196 creeps that may come.
    pub room: RoomTable,
    /// The creeps that moved onto border tiles, in rising id.
    pub crossers: Crossers,
    /// The player who gained points in this room, or 0.
    pub player: u32,
    /// The points that he gained.
    pub points: u32,
}

/// The tick of a room by itself: those of the entries that count there are ruled, kind by kind, then its
/// creeps move, then it is kept up; and the creeps that moved onto border tiles are listed. It is made on a
/// copy of the table, which takes its memory once. Entries whose actor is elsewhere do nothing and take no
/// memory.
///
/// It takes time by the room's objects and by the entries handed in. A room whose objects and what may be
/// made there come to 2^32 is refused as one without memory; one that keeps the rules has at most 7,500
/// objects.
pub fn step_room(
    alloc: Global,
    index: u32,
    ground: &Terrain,
    room: &RoomTable,
    intents: &[Intent],
) -> Result<StepDone, NoMemory>
    requires index { room.now.index ≡ index }
    requires rules { KeepsItsRules between ground.now room.now }
    requires serials { room.now.next ≤ serials_bound }
    requires few { length intents.now ≤ 2 ^ 18 }
    ensures stepped { IfOk result (IsStepped ground.now intents.now room.now) }
    ensures rules { IfOk result (λ done. StaysInRules ground.now room.now done.room) }
    ensures memory { IfOk result (λ done. HasAtMost
        (asked_for ground.now intents.now room.now) room.now done.room) }
{
    let entries = kept_in_room(alloc, room, intents)?;
    let table = copied(alloc, room, entries.len() as u32)?;
    step_entries(alloc, ground, table, &entries)
}

/// The same as `step_room` of a table that is taken: it is copied only where it has not as much memory as its
/// entries and the steps may need.
pub fn step_taken(
    alloc: Global,
    ground: &Terrain,
    room: RoomTable,
    intents: &[Intent],
) -> Result<StepDone, NoMemory>
    requires rules { KeepsItsRules between ground.now room }
    requires serials { room.next ≤ serials_bound }
    requires few { length intents.now ≤ 2 ^ 18 }
    ensures stepped { IfOk result (IsStepped ground.now intents.now room) }
    ensures rules { IfOk result (λ done. StaysInRules ground.now room done.room) }
    ensures memory { IfOk result (λ done. HasAtMost
        (max room.spare (asked_for ground.now intents.now room)) room done.room) }
{
    let entries = kept_in_room(alloc, &room, intents)?;
    step_entries(alloc, ground, room, &entries)
}

// The tick of a room by the entries that count there, in their turn.
fn step_entries(
    alloc: Global,
    ground: &Terrain,
    mut table: RoomTable,
    entries: &[Entry],
) -> Result<StepDone, NoMemory>
    requires rules { KeepsItsRules between ground.now table }
    requires serials { table.next ≤ serials_bound }
    requires few { length entries.now ≤ 2 ^ 18 }
    requires kept { (list : List Intent)
        × (intents_in entries.now ≡ in_turn (kept_in (table_part ground.now table) list)) }
    ensures stepped { IfOk result (λ done. (list : List Intent)
        → intents_in entries.now ≡ in_turn (kept_in (table_part ground.now table) list)
        → IsStepped ground.now list table done) }
    ensures rules { IfOk result (λ done. StaysInRules ground.now table done.room) }
    ensures memory { IfOk result (λ done. HasAtMost
        (max table.spare (wanted_spare (length entries.now) (length table.objects))) table done.room) }
{
    table.stands_in_order();
    widen(alloc, &mut table, entries.len() as u32)?;
    let gained = enter_all(ground, &mut table, entries);
    let moves = moves_among(alloc, entries)?;
    let mut table = tick_table(ground, table, moves.as_slice())?;
    let index = table.index();
    let list = crossers(alloc, index, &mut table)?;
    Ok(StepDone {
        room: table,
        crossers: Crossers { list },
        player: gained.player,
        points: gained.points,
    })
}

// Who gained points, and how many.
#[derive(Clone, Copy)]
struct Gained {
    player: u32,
    points: u32,
}

// Rules entries on the table of their room, one after the other, and answers who gained points, and how many.
fn enter_all(ground: &Terrain, table: &mut RoomTable, entries: &[Entry]) -> Gained
    requires start { HasCome ground.now table.old [] (length entries.now) table.old }
    requires few { length entries.now ≤ 2 ^ 18 }
    requires players { AllByRecursion (λ entry. 1 ≤ entry.intent.player) entries.now }
    ensures come { HasCome ground.now table.old (intents_in entries.now) 0 table.new }
    ensures gained { HasGained (points_entered (table_part ground.now table.old) (intents_in entries.now))
        result.player result.points }
{
    let mut gained = Gained {
        player: 0,
        points: 0,
    };
    for entry in entries {
        let points = rule(ground, table, &entry.intent);
        table.stands_in_order();
        if points > 0 {
            gained.player = entry.intent.player;
            gained.points += points;
        }
    }
    gained
}

// Those of the entries that are moves.
fn moves_among(alloc: Global, entries: &[Entry]) -> Result<Intents, NoMemory>
    ensures { IfOk result (λ moves. moves ≡ filter is_move (intents_in entries.now)) }
{
    let mut moves = Intents::new(alloc);
    for entry in entries {
        if matches!(entry.intent.action, Action::Move) {
            moves.push(entry.intent)?;
        }
    }
    Ok(moves)
}
