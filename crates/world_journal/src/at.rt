// Ticks of a journal, read from its disk, which is left as it is.
ghost use Rattle.std.specs.Prelude.{◌≡◌, ◌≢◌, ◌==◌, ℕ, ◌+◌, ◌<◌, ◌^◌, if◌then◌else◌, List, length, Contains};
ghost use Rattle.std.specs.Prelude.{Some, IfOk, IfErr, IfSome};
ghost use Rattle.object_store.specs.Stored.{Stored};
ghost use Rattle.record_follows.specs.Courses.{IsWorldAt};
ghost use Rattle.tick_journal.specs.declared.tick_record.TickRecord.{TickRecord as Recorded};
ghost use Rattle.world_journal.specs.Answers.{IsFaultOf, OnlyReads};
ghost use Rattle.world_journal.specs.Faults.{HasNoRecord, HasNoWorld};
ghost use Rattle.world_journal.specs.Journals.{IsCourse, IsJournal};
ghost use Rattle.world_journal.specs.declared.fault.AtFault.TheVariants.{DiskFault, NoSuchTick};

use crate::NoMemory;
use crate::fault::AtFault;
use crate::walk::Walk;
use object_store::World;
use std::alloc::Global;
use tick_journal::{Entries, TickRecord};
use world_io::Disk;

/// The records of a journal, in their order.
pub type TickRecords = Entries<TickRecord>;

/// The ticks of the first and of the last world of a journal.
pub fn span<D: Disk>(alloc: Global, disk: &mut D) -> Result<(u64, u64), AtFault>
    ensures found { IfOk result (λ ticks. (base : Stored) × (entries : List Recorded) × IsCourse base entries
        × IfSome (D.seen disk.old) (IsJournal base entries)
        × (ticks.0 ≡ base.tick) × (ticks.1 ≡ base.tick + length entries)) }
    ensures fault { IfErr result (IsFaultOf (λ first last bytes. ⊥)
        (D.seen disk.old) (D.faults disk.old) (D.faults disk.new)) }
    ensures of_no_tick { IfErr result (λ e. (first last : ℕ) → e ≢ NoSuchTick first last) }
    ensures steady { IfErr result (λ e. e ≢ DiskFault → D.faults disk.new ≡ D.faults disk.old) }
    ensures reads { OnlyReads (D.seen disk.old) (D.seen disk.new) (D.moments disk.old) (D.moments disk.new)
        (D.faults disk.old) (D.faults disk.new) result }
{
    let mut walk = Walk::begin(alloc, disk)?;
    let first = walk.world.tick();
    'each: while let Some(_) = walk.next(alloc, disk)? {}
    Ok((first, walk.world.tick()))
}

/// The world that a journal begins with, and all its records. It takes memory for all of them.
pub fn records<D: Disk>(alloc: Global, disk: &mut D) -> Result<(World, TickRecords), AtFault>
    ensures found { IfOk result (λ all. IsCourse all.0 all.1
        × IfSome (D.seen disk.old) (IsJournal all.0 all.1)) }
    ensures fault { IfErr result (IsFaultOf (λ first last bytes. ⊥)
        (D.seen disk.old) (D.faults disk.old) (D.faults disk.new)) }
    ensures of_no_tick { IfErr result (λ e. (first last : ℕ) → e ≢ NoSuchTick first last) }
    ensures steady { IfErr result (λ e. e ≢ DiskFault → D.faults disk.new ≡ D.faults disk.old) }
    ensures reads { OnlyReads (D.seen disk.old) (D.seen disk.new) (D.moments disk.old) (D.moments disk.new)
        (D.faults disk.old) (D.faults disk.new) result }
{
    let mut walk = Walk::begin(alloc, disk)?;
    let base = walk.world.copy(alloc)?;
    let mut entries = Vec::new(alloc);
    'each: while let Some(entry) = walk.next(alloc, disk)? {
        entries.push(entry)?;
    }
    Ok((base, Entries::from_vec(entries)))
}

// A copy of the world where it is the tick's, and else what was found.
fn world_if(
    alloc: Global,
    world: &World,
    tick: u64,
    found: Option<World>,
) -> Result<Option<World>, NoMemory>
    ensures { IfOk result (λ kept. kept ≡ (if world.now.tick == tick then Some world.now else found)) }
{
    if world.tick() == tick {
        Ok(Some(world.copy(alloc)?))
    } else {
        Ok(found)
    }
}

/// The world of a tick.
pub fn world_at<D: Disk>(alloc: Global, disk: &mut D, tick: u64) -> Result<World, AtFault>
    ensures found { IfOk result (λ world. (base : Stored) × (entries : List Recorded) × IsCourse base entries
        × IfSome (D.seen disk.old) (IsJournal base entries) × IsWorldAt base entries tick world) }
    ensures tick { IfOk result (λ world. world.tick < 2 ^ 63) }
    ensures fault { IfErr result (IsFaultOf (HasNoWorld tick)
        (D.seen disk.old) (D.faults disk.old) (D.faults disk.new)) }
    ensures steady { IfErr result (λ e. e ≢ DiskFault → D.faults disk.new ≡ D.faults disk.old) }
    ensures reads { OnlyReads (D.seen disk.old) (D.seen disk.new) (D.moments disk.old) (D.moments disk.new)
        (D.faults disk.old) (D.faults disk.new) result }
{
    let mut walk = Walk::begin(alloc, disk)?;
    let first = walk.world.tick();
    let mut found = world_if(alloc, &walk.world, tick, None)?;
    'each: while let Some(_) = walk.next(alloc, disk)? {
        found = world_if(alloc, &walk.world, tick, found)?;
    }
    let last = walk.world.tick();
    found.ok_or(AtFault::NoSuchTick { first, last })
}

// The record where it is the tick's, and else what was found.
fn record_if(entry: TickRecord, tick: u64, found: Option<TickRecord>) -> Option<TickRecord>
    ensures { result ≡ (if entry.tick == tick then Some entry else found) }
{
    if entry.tick == tick {
        Some(entry)
    } else {
        found
    }
}

/// The record of the tick that led to the world of this number.
pub fn tick_at<D: Disk>(alloc: Global, disk: &mut D, tick: u64) -> Result<TickRecord, AtFault>
    ensures found { IfOk result (λ entry. (base : Stored) × (entries : List Recorded) × IsCourse base entries
        × IfSome (D.seen disk.old) (IsJournal base entries) × Contains entries entry × (entry.tick ≡ tick)) }
    ensures fault { IfErr result (IsFaultOf (HasNoRecord tick)
        (D.seen disk.old) (D.faults disk.old) (D.faults disk.new)) }
    ensures steady { IfErr result (λ e. e ≢ DiskFault → D.faults disk.new ≡ D.faults disk.old) }
    ensures reads { OnlyReads (D.seen disk.old) (D.seen disk.new) (D.moments disk.old) (D.moments disk.new)
        (D.faults disk.old) (D.faults disk.new) result }
{
    let mut walk = Walk::begin(alloc, disk)?;
    let first = walk.world.tick();
    let mut found = None;
    'each: while let Some(entry) = walk.next(alloc, disk)? {
        found = record_if(entry, tick, found);
    }
    let last = walk.world.tick();
    found.ok_or(AtFault::NoSuchTick { first, last })
}
