// What stands in a journal, read from its disk.
ghost use Rattle.std.specs.Prelude.{◌≡◌, ◌≢◌, ℕ, ◌≤◌, false, List, IfOk, IfErr, IfSome, OnOk};
ghost use Rattle.world_io.specs.Disk.{Same, TellsAlike};
ghost use Rattle.world_io.specs.Moments.{LeavesSince, Rests};
ghost use Rattle.frame_log.specs.Frames.{IsLog};
ghost use Rattle.object_store.specs.Stored.{Stored};
ghost use Rattle.tick_journal.specs.declared.tick_record.TickRecord.{TickRecord as Recorded};
ghost use Rattle.world_journal.specs.Answers.{IsRecoverFaultOf};
ghost use Rattle.world_journal.specs.Journals.{HasJournal, IsJournal, IsKeptOrCut, IsQuiet};
ghost use Rattle.world_journal.specs.Recovering.{HasRecovered};
ghost use Rattle.world_journal.specs.declared.fault.RecoverFault.TheVariants.{DiskFault};

use crate::fault::RecoverFault;
use crate::journal::Journal;
use crate::recovered::Recovered;
use crate::uploaded::Uploaded;
use crate::walk::Walk;
use frame_log::Log;
use std::alloc::Global;
use tick_journal::Entries;
use world_io::Disk;

impl Journal {
    /// Reads the journal of a disk, one frame at a time, and cuts off what follows its closed gate. It takes
    /// memory for the world, the modules and the frame that is read.
    pub fn recover<D: Disk>(alloc: Global, disk: &mut D) -> Result<Recovered, RecoverFault>
        requires { IsQuiet (D.seen disk.old) (D.moments disk.old) }
        ensures found { IfOk result (λ found. (entries : List Recorded) × HasRecovered entries found
            × IfSome (D.seen disk.old) (IsJournal found.base entries)
            × IfSome (D.seen disk.old) (λ bytes.
            HasJournal found.base entries found.journal.log.gate (D.seen disk.new) (D.moments disk.new))) }
        ensures each_moment { (base : Stored) (entries : List Recorded) (bytes : List ℕ)
            → IsJournal base entries bytes → Rests bytes (D.seen disk.old) (D.moments disk.old)
            → LeavesSince (IsJournal base entries) (D.moments disk.old) (D.moments disk.new) }
        ensures kept { (bytes : List ℕ) → Rests bytes (D.seen disk.old) (D.moments disk.old)
            → LeavesSince (IsKeptOrCut bytes) (D.moments disk.old) (D.moments disk.new) }
        ensures left { (bytes : List ℕ) → Rests bytes (D.seen disk.old) (D.moments disk.old)
            → IfSome (D.seen disk.new) (IsKeptOrCut bytes) }
        ensures rests { IfOk result (λ found.
            IsLog found.journal.log.gate (D.seen disk.new) (D.moments disk.new)) }
        ensures is_open { IfOk result (λ found. found.journal.log.is_closed ≡ false) }
        ensures fault { IfErr result (IsRecoverFaultOf
            (D.seen disk.old) (D.faults disk.old) (D.faults disk.new)) }
        ensures unchanged { IfErr result (λ e. e ≢ DiskFault
            → Same (D.seen disk.old) (D.seen disk.new) × (D.moments disk.new ≡ D.moments disk.old)) }
        ensures alike { TellsAlike (D.seen disk.old) (D.seen disk.new) }
        ensures steady { OnOk result (D.faults disk.new ≡ D.faults disk.old) }
        ensures steady_else { IfErr result (λ e. e ≢ DiskFault → D.faults disk.new ≡ D.faults disk.old) }
        ensures later { D.faults disk.old ≤ D.faults disk.new }
    {
        let mut walk = Walk::begin(alloc, disk)?;
        let base = walk.world.copy(alloc)?;
        let mut uploaded = Uploaded::none(alloc, base.account_list())?;
        'each: while let Some(entry) = walk.next(alloc, disk)? {
            uploaded.add_all(entry.uploads)?;
        }
        let log = Log::open(disk, walk.len, walk.gate)?;
        Ok(Recovered {
            journal: Journal { log },
            base,
            world: walk.into_world(),
            modules: uploaded.modules,
            uploads: Entries::from_vec(uploaded.counts),
        })
    }
}
