// The world of the last record, by which the next one is told.
ghost use Rattle.std.specs.Prelude.{◌≡◌, IfOk, OnOk};
ghost use Rattle.object_store.specs.Stored.{Stored};
ghost use Rattle.record_follows.specs.Follows.{Follows, after as world_after};
ghost use Rattle.tick_journal.specs.BaseForms.{world_as_read};
ghost use Rattle.world_rules.specs.Sound.{IsSound};
ghost use Rattle.tick_journal.specs.TickForms.{tick_as_read};
ghost use Rattle.recorded_tick.specs.Recording.{AreReadAlike, HaveAsMany, HaveSameFrame, IsRecordOf};
ghost use Rattle.recorded_tick.specs.Recording.{StandsAt};

use crate::NoMemory;
use crate::record::record_tick;
use intent_book::PlayerRun;
use object_store::World;
use record_follows::put;
use std::alloc::Global;
use tick_journal::{TickRecord, UploadEntry};

/// The world that the records so far lead to. It is led on by each record, so that the world before a tick
/// need not be copied to tell what the tick changed.
pub struct Recorder {
    last: World,
}

impl Drop for Recorder {
    fn drop(self) {
        let Recorder { last: _ } = self;
    }
}

impl Recorder {
    /// It stands at this world, of which it takes a copy.
    pub fn of(alloc: Global, world: &World) -> Result<Recorder, NoMemory>
        ensures { IfOk result (λ recorder. StandsAt recorder world.now) }
    {
        Ok(Recorder {
            last: world.copy(alloc)?,
        })
    }

    /// The record of a tick between the world that it stands at and the one after, of the same rooms and
    /// accounts. It copies the accounts and the tables that changed, and takes the uploads and the runs, but
    /// for the memory texts, which stand in the accounts.
    pub fn record(
        &self,
        alloc: Global,
        after: &World,
        uploads: Vec<UploadEntry>,
        runs: Vec<PlayerRun>,
    ) -> Result<TickRecord, NoMemory>
        requires { (before : Stored) × StandsAt self.now before × HaveAsMany before after.now }
        ensures { IfOk result (λ entry. (before : Stored) → StandsAt self.now before
            → IsRecordOf before after.now uploads.items runs.items entry) }
    {
        let entry = record_tick(alloc, &self.last, after, uploads, runs)?;
        Ok(entry)
    }

    /// Leads it on by a record that follows the world that it stands at. It takes time and memory for what is
    /// recorded, and for a list of the rooms; on want of memory it may stand anywhere.
    pub fn lead(&mut self, alloc: Global, entry: &TickRecord) -> Result<(), NoMemory>
        requires { (before : Stored) × StandsAt self.old before
            × Follows (world_as_read before) (tick_as_read entry.now) }
        ensures { OnOk result ((before : Stored) → StandsAt self.old before
            → world_as_read self.new.last
            ≡ world_after (world_as_read before) (tick_as_read entry.now)) }
    {
        put(alloc, &mut self.last, entry)?;
        Ok(())
    }
}

/// Makes a world one that is read as another of the same rooms and players: what differs is copied. It takes
/// one pass over both; on want of memory the world may be any.
pub fn catch_up(alloc: Global, world: &mut World, other: &World) -> Result<(), NoMemory>
    requires sound { IsSound world.old }
    requires well { IsSound other.now }
    requires frame { HaveSameFrame world.old other.now }
    ensures alike { OnOk result (AreReadAlike world.new other.now) }
    ensures sound { OnOk result (IsSound world.new) }
{
    let differing = record_tick(alloc, world, other, Vec::new(alloc), Vec::new(alloc))?;
    put(alloc, world, &differing)?;
    Ok(())
}
