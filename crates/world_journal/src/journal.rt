// The journal of a disk.
ghost use Rattle.std.specs.Prelude.{◌≡◌, ◌≢◌, ◌↔◌, ℕ, ◌+◌, ◌≤◌, true, false, [], ◌∷◌, ◌++◌, List, length};
ghost use Rattle.std.specs.Prelude.{Err, IfOk, IfErr, OnOk};
ghost use Rattle.world_io.specs.Causes.{Rose};
ghost use Rattle.world_io.specs.Disk.{TellsAlike};
ghost use Rattle.world_io.specs.Moments.{LeavesSince, Rests};
ghost use Rattle.frame_log.specs.Frames.{IsEmpty, IsEmptyDisk, IsLog};
ghost use Rattle.judged_uploads.specs.Judging.{with_uploads};
ghost use Rattle.object_store.specs.Stored.{Stored};
ghost use Rattle.record_follows.specs.Courses.{world_after};
ghost use Rattle.tick_journal.specs.BaseForms.{world_as_read};
ghost use Rattle.tick_journal.specs.Contents.{base_content, tick_content};
ghost use Rattle.tick_journal.specs.TickForms.{tick_as_read};
ghost use Rattle.tick_journal.specs.declared.tick_record.TickRecord.{TickRecord as Recorded};
ghost use Rattle.world_journal.specs.Journals.{HasJournal, IsBeforeOrAfter, IsEmptyOrBase, MayBegin};
ghost use Rattle.world_journal.specs.Journals.{MayFollow};
ghost use Rattle.world_journal.specs.declared.fault.AppendFault.TheVariants.{Closed, DiskFault, Memory};

use crate::fault::AppendFault;
use frame_log::Log;
use judged_uploads::{JudgedUploads, tick_piece};
use object_store::World;
use std::alloc::Global;
use tick_journal::{TickRecord, write_base, write_tick};
use world_io::Disk;

/// A journal, by its log. Once a call of the disk failed it adds nothing more, until it is recovered.
#[derive(Drop)]
pub struct Journal {
    pub(crate) log: Log,
}

impl Journal {
    /// Begins a journal with this world, on a disk on which nothing was ever committed. It takes its memory
    /// before the first call of the disk.
    pub fn create<D: Disk>(
        alloc: Global,
        disk: &mut D,
        base: &World,
    ) -> Result<Journal, AppendFault>
        requires { IsEmptyDisk (D.seen disk.old) (D.moments disk.old) }
        ensures each_moment { (bytes : List ℕ) → IsEmpty bytes
            → Rests bytes (D.seen disk.old) (D.moments disk.old) → MayBegin base.now
            → LeavesSince (IsEmptyOrBase (world_as_read base.now)) (D.moments disk.old) (D.moments disk.new) }
        ensures done { IfOk result (λ journal. (bytes : List ℕ) → IsEmpty bytes
            → Rests bytes (D.seen disk.old) (D.moments disk.old) → MayBegin base.now
            → HasJournal (world_as_read base.now) [] journal.log.gate
            (D.seen disk.new) (D.moments disk.new)) }
        ensures rests { IfOk result
            (λ journal. IsLog journal.log.gate (D.seen disk.new) (D.moments disk.new)) }
        ensures gate { IfOk result (λ journal. journal.log.gate ≡ 9 + length (base_content base.now)) }
        ensures is_open { IfOk result (λ journal. journal.log.is_closed ≡ false) }
        ensures disk_fault { IfErr result
            (λ e. e ≡ DiskFault → Rose (D.faults disk.old) (D.faults disk.new)) }
        ensures memory { IfErr result (λ e. e ≡ Memory → disk.new ≡ disk.old) }
        ensures never_closed { IfErr result (λ e. e ≢ Closed) }
        ensures alike { TellsAlike (D.seen disk.old) (D.seen disk.new) }
        ensures steady { OnOk result (D.faults disk.new ≡ D.faults disk.old) }
        ensures later { D.faults disk.old ≤ D.faults disk.new }
    {
        let content = write_base(alloc, base)?;
        let log = Log::create(alloc, disk, &content)?;
        Ok(Journal { log })
    }

    /// Adds the record of a tick. It takes its memory before the first call of the disk. After a `DiskFault`
    /// the journal answers `Closed`, and is to be recovered.
    pub fn append<D: Disk>(
        &mut self,
        alloc: Global,
        disk: &mut D,
        entry: &TickRecord,
    ) -> Result<(), AppendFault>
        requires { self.old.log.is_closed ≡ false
            → IsLog self.old.log.gate (D.seen disk.old) (D.moments disk.old) }
        ensures each_moment { (base : Stored) (entries : List Recorded)
            → HasJournal base entries self.old.log.gate (D.seen disk.old) (D.moments disk.old)
            → MayFollow (world_after base entries) entry.now
            → LeavesSince (IsBeforeOrAfter base entries (tick_as_read entry.now))
            (D.moments disk.old) (D.moments disk.new) }
        ensures done { OnOk result ((base : Stored) (entries : List Recorded)
            → HasJournal base entries self.old.log.gate (D.seen disk.old) (D.moments disk.old)
            → MayFollow (world_after base entries) entry.now
            → HasJournal base (entries ++ tick_as_read entry.now ∷ [])
            self.new.log.gate (D.seen disk.new) (D.moments disk.new)) }
        ensures rests { OnOk result (IsLog self.new.log.gate (D.seen disk.new) (D.moments disk.new)) }
        ensures gate { OnOk result (self.new.log.gate
            ≡ self.old.log.gate + 9 + length (tick_content entry.now)) }
        ensures is_open { OnOk result (self.new.log.is_closed ≡ false) }
        ensures disk_fault { IfErr result (λ e. e ≡ DiskFault
            → Rose (D.faults disk.old) (D.faults disk.new) × (self.new.log.is_closed ≡ true)) }
        ensures closed { (result ≡ Err Closed) ↔ (self.old.log.is_closed ≡ true) }
        ensures unchanged { IfErr result
            (λ e. e ≢ DiskFault → (disk.new ≡ disk.old) × (self.new ≡ self.old)) }
        ensures alike { TellsAlike (D.seen disk.old) (D.seen disk.new) }
        ensures steady { OnOk result (D.faults disk.new ≡ D.faults disk.old) }
        ensures later { D.faults disk.old ≤ D.faults disk.new }
    {
        if self.log.is_closed() {
            return Err(AppendFault::Closed);
        }
        let content = write_tick(alloc, entry)?;
        Ok(self.log.append(alloc, disk, &content)?)
    }

    /// Adds the record of a tick with these uploads, lent from their stream, in the place of the entry's own,
    /// of which there are none: their bytes are copied once, into the frame. It takes its memory before the
    /// first call of the disk. After a `DiskFault` the journal answers `Closed`, and is to be recovered.
    pub fn append_judged<D: Disk>(
        &mut self,
        alloc: Global,
        disk: &mut D,
        judged: &JudgedUploads,
        entry: &TickRecord,
    ) -> Result<(), AppendFault>
        requires log { self.old.log.is_closed ≡ false
            → IsLog self.old.log.gate (D.seen disk.old) (D.moments disk.old) }
        requires none { entry.now.uploads ≡ [] }
        ensures each_moment { (base : Stored) (entries : List Recorded)
            → HasJournal base entries self.old.log.gate (D.seen disk.old) (D.moments disk.old)
            → MayFollow (world_after base entries) (with_uploads judged.now entry.now)
            → LeavesSince (IsBeforeOrAfter base entries (tick_as_read (with_uploads judged.now entry.now)))
            (D.moments disk.old) (D.moments disk.new) }
        ensures done { OnOk result ((base : Stored) (entries : List Recorded)
            → HasJournal base entries self.old.log.gate (D.seen disk.old) (D.moments disk.old)
            → MayFollow (world_after base entries) (with_uploads judged.now entry.now)
            → HasJournal base (entries ++ tick_as_read (with_uploads judged.now entry.now) ∷ [])
            self.new.log.gate (D.seen disk.new) (D.moments disk.new)) }
        ensures rests { OnOk result (IsLog self.new.log.gate (D.seen disk.new) (D.moments disk.new)) }
        ensures gate { OnOk result (self.new.log.gate
            ≡ self.old.log.gate + 9 + length (tick_content (with_uploads judged.now entry.now))) }
        ensures is_open { OnOk result (self.new.log.is_closed ≡ false) }
        ensures disk_fault { IfErr result (λ e. e ≡ DiskFault
            → Rose (D.faults disk.old) (D.faults disk.new) × (self.new.log.is_closed ≡ true)) }
        ensures closed { (result ≡ Err Closed) ↔ (self.old.log.is_closed ≡ true) }
        ensures unchanged { IfErr result
            (λ e. e ≢ DiskFault → (disk.new ≡ disk.old) × (self.new ≡ self.old)) }
        ensures alike { TellsAlike (D.seen disk.old) (D.seen disk.new) }
        ensures steady { OnOk result (D.faults disk.new ≡ D.faults disk.old) }
        ensures later { D.faults disk.old ≤ D.faults disk.new }
    {
        if self.log.is_closed() {
            return Err(AppendFault::Closed);
        }
        let piece = tick_piece(alloc, judged, entry)?;
        Ok(self.log.append_piece(disk, piece)?)
    }
}
