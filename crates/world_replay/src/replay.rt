// The records of a journal, ruled again.
ghost use Rattle.std.specs.Prelude.{◌≡◌, ◌≢◌, ◌⊎◌, ℕ, ◌<◌, ◌≤◌, ◌^◌, true, List, [], ◌++◌, length, Some};
ghost use Rattle.std.specs.Prelude.{string_bytes, IfOk, IfErr, IfSome, OnOk};
ghost use Rattle.std.specs.List.{flat_map};
ghost use Rattle.changed_rules.specs.Census.{ArePlaced};
ghost use Rattle.hosted_tick.specs.Hosting.{IsHosted};
ghost use Rattle.kept_entries.specs.Turns.{AreKept};
ghost use Rattle.object_store.specs.Stored.{AreRising, Stored};
ghost use Rattle.record_follows.specs.Follows.{Fits};
ghost use Rattle.recorded_tick.specs.Recording.{AreAlike, AreReadAlike, HaveSameFrame};
ghost use Rattle.rule_check.specs.Kept.{KeepsObjectRules};
ghost use Rattle.tick_journal.specs.TickForms.{HasTickForm};
ghost use Rattle.tick_journal.specs.declared.tick_record.TickRecord.{TickRecord as Recorded};
ghost use Rattle.world_bytes.specs.Forms.{room_bytes};
ghost use Rattle.world_io.specs.Causes.{Rose};
ghost use Rattle.world_io.specs.Disk.{LengthIs};
ghost use Rattle.world_journal.specs.Counted.{IsCounted};
ghost use Rattle.world_journal.specs.Journals.{IsCourse, IsJournal};
ghost use Rattle.world_journal.specs.Walking.{HasPassed, HasWalked};
ghost use Rattle.world_rules.specs.Sound.{HaveSerials, IsSound};
ghost use Rattle.world_rules.specs.World.{world_of};
ghost use Rattle.world_replay.specs.Replayed.{AllRuled, EndsReplaying, IsNotReplayed, IsReplayed};
ghost use Rattle.world_replay.specs.Replayed.{forms, replayed_line, ruled_forms};
ghost use Rattle.world_replay.specs.Serials.{HasSerials};
ghost use Rattle.world_replay.specs.inner.Ruling.{AreAlikeTo, AreUnlike, BreaksRules, ComesOf, HasCome};
ghost use Rattle.world_replay.specs.inner.Ruling.{IsTold, IsUnlike, IsUnruledAs, Reads};

use crate::differing::{byte_at, first_difference};
use crate::serials::exhausted_room;
use changed_rules::has_few_sites;
use intent_book::Intent;
use kept_entries::{Entry, kept_entries};
use object_store::{Room, RoomTable, World};
use recorded_tick::{are_alike, catch_up, courses_can_be_hosted};
use ruled_tick::tick_taken;
use run_status::Status;
use std::alloc::{AllocError as NoMemory, Global};
use tick_journal::{RunEntry, TickRecord};
use world_bytes::write_room;
use world_io::{Disk, Sink, write_all};
use world_journal::{UntestedWalk, Walk};
use world_roster::Roster;

/// Rules the records of the journal on the disk again, and writes how many there are, if each room after each
/// of them is what the rules make of the world before.
pub fn replay_journal<O: Sink, D: Disk>(alloc: Global, out: &mut O, disk: &mut D) -> Status
    ensures ends { EndsReplaying (D.seen disk.old) (D.faults disk.old) (D.faults disk.new)
        (O.written out.old) (O.written out.new) result }
    ensures write_fault { result ≡ Status.WriteFault → Rose (O.faults out.old) (O.faults out.new) }
    ensures complete { (bytes : List ℕ) (base : Stored) (entries : List Recorded)
        → D.seen disk.old ≡ Some bytes → IsJournal base entries bytes → AllRuled base entries
        → (Rose (D.faults disk.old) (D.faults disk.new) → ⊥)
        → (Rose (O.faults out.old) (O.faults out.new) → ⊥)
        → (result ≡ Status.Memory) ⊎ (result ≡ Status.Done) }
    ensures disk { (D.seen disk.new ≡ D.seen disk.old) × (D.moments disk.new ≡ D.moments disk.old) }
    ensures disk_steady { result ≢ Status.DiskFault → D.faults disk.new ≡ D.faults disk.old }
    ensures disk_later { D.faults disk.old ≤ D.faults disk.new }
    ensures write_steady { result ≢ Status.WriteFault → O.faults out.new ≡ O.faults out.old }
    ensures out_later { O.faults out.old ≤ O.faults out.new }
{
    let count = match replayed(alloc, disk) {
        Ok(count) => count,
        Err(status) => return status,
    };
    let Ok(line) = line_of(alloc, count) else {
        return Status::Memory;
    };
    match write_all(out, line.as_bytes()) {
        Ok(()) => Status::Done,
        Err(_) => Status::WriteFault,
    }
}

// The line of so many records.
fn line_of(alloc: Global, count: u64) -> Result<String, NoMemory>
    ensures { IfOk result (λ line. string_bytes line ≡ replayed_line count) }
{
    format!(in alloc; "replayed {count}\n")
}

// What comes of the records of a journal.
#[derive(Drop)]
enum Replay {
    // All are what the rules make, up to this tick.
    Ruled(u64),
    // One is not, for this reason. The reading stands behind it.
    Unruled(Walk, Status),
}

// How many records the journal on the disk has, if all are what the rules make. It is read one frame at a
// time, and to its end also behind a record that is not, since it is a journal only if no later frame fails.
fn replayed<D: Disk>(alloc: Global, disk: &mut D) -> Result<u64, Status>
    ensures all { IfOk result (IsReplayed (D.seen disk.old) (D.faults disk.old) (D.faults disk.new)) }
    ensures fault { IfErr result
        (IsNotReplayed (D.seen disk.old) (D.faults disk.old) (D.faults disk.new)) }
    ensures reads { Reads (D.seen disk.old) (D.seen disk.new) (D.moments disk.old) (D.moments disk.new)
        (D.faults disk.old) (D.faults disk.new) result }
{
    let walk = Walk::begin(alloc, disk)?;
    let first = walk.world().tick();
    match rule_records(alloc, disk, walk.untested())? {
        Replay::Ruled(last) => Ok(last - first),
        Replay::Unruled(rest, status) => {
            read_rest(alloc, disk, rest)?;
            Err(status)
        }
    }
}

// What comes of a record.
#[derive(Drop)]
enum Turn {
    // It is what the rules make: the world that was ruled, and the reading behind the record.
    Ruled(World, UntestedWalk),
    // It is not, for this reason. The reading stands behind it.
    Unruled(Walk, Status),
}

// Rules the records of a journal again from its front, up to the first that is not what the rules make.
fn rule_records<D: Disk>(
    alloc: Global,
    disk: &mut D,
    mut walk: UntestedWalk,
) -> Result<Replay, Status>
    requires begun { HasPassed walk.world [] walk (D.seen disk.old) }
    requires length { LengthIs (D.seen disk.old) walk.len }
    requires places { ArePlaced walk.world.rooms }
    ensures come { IfOk result (λ replay. (entries : List Recorded)
        × HasCome walk.world entries (D.seen disk.old) replay) }
    ensures fault { IfErr result
        (IsNotReplayed (D.seen disk.old) (D.faults disk.old) (D.faults disk.new)) }
    ensures reads { Reads (D.seen disk.old) (D.seen disk.new) (D.moments disk.old) (D.moments disk.new)
        (D.faults disk.old) (D.faults disk.new) result }
{
    courses_can_be_hosted();
    let Ok(mut own) = walk.world().copy(alloc) else {
        return Err(Status::Memory);
    };
    'each: while let Some(told) = walk.next(alloc, disk)? {
        match rule_told(alloc, own, &told, walk)? {
            Turn::Ruled(ruled, behind) => {
                own = ruled;
                walk = behind;
            }
            Turn::Unruled(rest, status) => return Ok(Replay::Unruled(rest, status)),
        }
    }
    Ok(Replay::Ruled(walk.world().tick()))
}

// Rules a record again, behind which the reading stands. The record is known to keep the rules of objects
// where its rooms are those that the rules make and nobody has too many sites; else they are tested.
fn rule_told(
    alloc: Global,
    own: World,
    told: &TickRecord,
    walk: UntestedWalk,
) -> Result<Turn, Status>
    requires told { IsTold own told.now walk.world }
    requires places { ArePlaced walk.world.rooms }
    ensures came { IfOk result (ComesOf own told.now walk) }
    ensures fault { IfErr result (BreaksRules walk.world walk.from) }
{
    match rule_again(alloc, own, told, walk.world()) {
        Ok((ruled, keeps)) => {
            let behind = go_on(alloc, walk, keeps)?;
            let next = caught_up(alloc, ruled, behind.world())?;
            Ok(Turn::Ruled(next, behind))
        }
        Err(status) => Ok(Turn::Unruled(tested(alloc, walk)?, status)),
    }
}

// The reading that tests the rules of objects, if the world keeps them.
fn tested(alloc: Global, walk: UntestedWalk) -> Result<Walk, Status>
    requires { ArePlaced walk.world.rooms }
    ensures same { IfOk result (λ next. (next.world ≡ walk.world) × (next.gate ≡ walk.gate)
        × (next.len ≡ walk.len)) }
    ensures counted { IfOk result (λ next. IsCounted next.world next.census) }
    ensures fault { IfErr result (BreaksRules walk.world walk.from) }
{
    let next = walk.tested(alloc)?;
    Ok(next)
}

// The reading behind a record, if the world after it keeps the rules of objects, which is tested where it
// isn't known.
fn go_on(alloc: Global, walk: UntestedWalk, keeps: bool) -> Result<UntestedWalk, Status>
    requires keeps { keeps ≡ true → KeepsObjectRules walk.world }
    requires places { ArePlaced walk.world.rooms }
    ensures keeps { OnOk result (KeepsObjectRules walk.world) }
    ensures same { IfOk result (λ next. (next.world ≡ walk.world) × (next.gate ≡ walk.gate)
        × (next.len ≡ walk.len)) }
    ensures fault { IfErr result (BreaksRules walk.world walk.from) }
{
    if keeps {
        return Ok(walk);
    }
    Ok(tested(alloc, walk)?.untested())
}

// The world that was ruled, read as the one after the record, which has its accounts too.
fn caught_up(alloc: Global, mut ruled: World, after: &World) -> Result<World, Status>
    requires sound { IsSound ruled }
    requires well { IsSound after.now }
    requires frame { HaveSameFrame ruled after.now }
    ensures alike { IfOk result (λ own. AreReadAlike own after.now) }
    ensures memory { IfErr result (λ status. status ≡ Status.Memory) }
{
    match catch_up(alloc, &mut ruled, after) {
        Ok(()) => Ok(ruled),
        Err(_) => Err(Status::Memory),
    }
}

// Reads a journal to its end, testing the rules.
fn read_rest<D: Disk>(alloc: Global, disk: &mut D, mut walk: Walk) -> Result<(), Status>
    requires length { LengthIs (D.seen disk.old) walk.len }
    requires counted { IsCounted walk.world walk.census }
    ensures read { OnOk result ((base : Stored) (entries : List Recorded)
        → HasWalked base entries walk (D.seen disk.old)
        → (later : List Recorded) × IsCourse base (entries ++ later)
        × IfSome (D.seen disk.old) (IsJournal base (entries ++ later))) }
    ensures fault { IfErr result (λ status. (base : Stored) (entries : List Recorded)
        → HasWalked base entries walk (D.seen disk.old)
        → IsNotReplayed (D.seen disk.old) (D.faults disk.old) (D.faults disk.new) status) }
    ensures reads { Reads (D.seen disk.old) (D.seen disk.new) (D.moments disk.old) (D.moments disk.new)
        (D.faults disk.old) (D.faults disk.new) result }
{
    'each: while let Some(_) = walk.next(alloc, disk)? {}
    Ok(())
}

// The world that the rules make of a world and of what a record says is wanted, if its rooms have the forms
// of those after the record; and whether these are known to keep the rules of objects.
fn rule_again(
    alloc: Global,
    own: World,
    told: &TickRecord,
    after: &World,
) -> Result<(World, bool), Status>
    requires hosted { IsHosted own }
    requires fits { Fits own told.now }
    requires form { HasTickForm told.now }
    requires frame { HaveSameFrame own after.now }
    requires rising { AreRising after.now.accounts }
    ensures serials { OnOk result (HasSerials (world_of own)) }
    ensures ruled { OnOk result (forms after.now.rooms ≡ ruled_forms own told.now) }
    ensures sound { IfOk result (λ next. IsSound next.0) }
    ensures frame { IfOk result (λ next. HaveSameFrame next.0 after.now) }
    ensures keeps { IfOk result (λ next. next.1 ≡ true → KeepsObjectRules after.now) }
    ensures unruled { IfErr result (IsUnruledAs own told.now (forms after.now.rooms)) }
{
    if let Some(index) = exhausted_room(&own) {
        return Err(Status::IdsExhausted(index));
    }
    let Ok(ruled) = ruled_world(alloc, own, told) else {
        return Err(Status::Memory);
    };
    match compare_rooms(alloc, told.tick, after.room_list(), ruled.room_list()) {
        Ok(alike) => match has_few_sites(alloc, &ruled) {
            Ok(few) => Ok((ruled, alike & few)),
            Err(_) => Err(Status::Memory),
        },
        Err(status) => Err(status),
    }
}

// The world that the rules make of a world and of what a record says is wanted.
fn ruled_world(alloc: Global, own: World, entry: &TickRecord) -> Result<World, NoMemory>
    requires hosted { IsHosted own }
    requires form { HasTickForm entry.now }
    requires fits { Fits own entry.now }
    requires serials { HaveSerials own.rooms }
    ensures ruled { IfOk result (λ world. forms world.rooms ≡ ruled_forms own entry.now) }
    ensures frame { IfOk result (λ world. HaveSameFrame own world) }
    ensures sound { IfOk result IsSound }
{
    let wanted = wanted_by(alloc, entry.runs.as_slice())?;
    let entries = counted(alloc, &own, &wanted)?;
    let ruled = tick_taken(alloc, own, &entries)?;
    Ok(ruled)
}

// Those of the entries that count, in the order of a tick. The objects are listed only for entries to be
// found among them.
fn counted(alloc: Global, world: &World, wanted: &[Intent]) -> Result<Vec<Entry>, NoMemory>
    requires { IsSound world.now }
    ensures { IfOk result (λ entries. AreKept (world_of world.now) wanted.now entries.items) }
{
    if wanted.is_empty() {
        return Ok(Vec::new(alloc));
    }
    let roster = Roster::of(alloc, world)?;
    let entries = kept_entries(alloc, world, &roster, wanted)?;
    Ok(entries)
}

// What all runs want, in their order.
fn wanted_by(alloc: Global, runs: &[RunEntry]) -> Result<Vec<Intent>, NoMemory>
    ensures { IfOk result (λ wanted. wanted.items ≡ flat_map (λ run. run.intents) runs.now) }
{
    let mut wanted = Vec::new(alloc);
    for run in runs {
        wanted.extend_from_slice(run.intents.as_slice())?;
    }
    Ok(wanted)
}

// Compares the byte forms of rooms that were recorded with those that are ruled, and answers whether all
// rooms are written alike.
fn compare_rooms(alloc: Global, tick: u64, kept: &[Room], ruled: &[Room]) -> Result<bool, Status>
    requires many { length kept.now ≡ length ruled.now }
    requires within { length kept.now < 2 ^ 32 }
    ensures same { OnOk result (forms kept.now ≡ forms ruled.now) }
    ensures alike { IfOk result (λ alike. alike ≡ true → AreAlikeTo (length kept.now) kept.now ruled.now) }
    ensures unlike { IfErr result (AreUnlike tick (forms kept.now) (forms ruled.now)) }
{
    let mut all = true;
    for (index, room) in kept.iter().enumerate() {
        match compare_room(alloc, tick, index as u32, &room.table, &ruled[index].table) {
            Ok(alike) => all = all & alike,
            Err(status) => return Err(status),
        }
    }
    Ok(all)
}

// Compares the byte forms of a room, and answers whether both are written alike.
fn compare_room(
    alloc: Global,
    tick: u64,
    index: u32,
    kept: &RoomTable,
    ruled: &RoomTable,
) -> Result<bool, Status>
    ensures same { OnOk result (room_bytes kept.now ≡ room_bytes ruled.now) }
    ensures alike { IfOk result (λ alike. alike ≡ true → AreAlike kept.now ruled.now) }
    ensures unlike { IfErr result (IsUnlike tick index (room_bytes kept.now) (room_bytes ruled.now)) }
{
    if are_alike(kept, ruled) {
        return Ok(true);
    }
    let Ok(one) = form_of(alloc, kept) else {
        return Err(Status::Memory);
    };
    let Ok(other) = form_of(alloc, ruled) else {
        return Err(Status::Memory);
    };
    match first_difference(&one, &other) {
        None => Ok(false),
        Some(place) => Err(Status::Differs {
            tick,
            room: index,
            at: place as u64,
            kept: byte_at(&one, place),
            ruled: byte_at(&other, place),
        }),
    }
}

// The byte form of a room.
fn form_of(alloc: Global, table: &RoomTable) -> Result<Vec<u8>, NoMemory>
    ensures { IfOk result (λ form. form.items ≡ room_bytes table.now) }
{
    let mut form = Vec::new(alloc);
    write_room(table.index(), table, &mut form)?;
    Ok(form)
}
