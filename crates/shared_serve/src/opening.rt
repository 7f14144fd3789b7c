// The opening of the journal of a world that is served.
ghost use Rattle.std.specs.Prelude.{◌≡◌, ◌≢◌, ◌⊎◌, ℕ, ◌≤◌, false, List, [], Option, Some, None, IfOk, IfErr};
ghost use Rattle.std.specs.Prelude.{IfSome, OnOk};
ghost use Rattle.frame_log.specs.Frames.{IsEmpty, IsEmptyDisk, IsLog};
ghost use Rattle.object_store.specs.Stored.{Stored};
ghost use Rattle.tick_journal.specs.BaseForms.{world_as_read};
ghost use Rattle.tick_journal.specs.Contents.{base_content};
ghost use Rattle.tick_journal.specs.declared.tick_record.TickRecord.{TickRecord};
ghost use Rattle.world_io.specs.Causes.{Rose};
ghost use Rattle.world_io.specs.Disk.{TellsAlike};
ghost use Rattle.world_io.specs.Moments.{LeavesSince, Rests};
ghost use Rattle.world_journal.specs.Faults.{FailsAt};
ghost use Rattle.world_journal.specs.Journals.{HasJournal, IsEmptyOrBase, IsJournal, IsQuiet, IsWholeJournal};
ghost use Rattle.world_journal.specs.Recovering.{HasRecovered};
ghost use Rattle.world_replay.specs.Differing.{DifferAt};
ghost use Rattle.world_run.specs.Images.{IsOpening};
ghost use Rattle.world_run.specs.Runs.{IsKept, Stood};
ghost use Rattle.world_run.specs.inner.Crashes.{StoodAs};
ghost use Rattle.world_run.specs.inner.Held.{MayStart};
ghost use Rattle.world_run.specs.inner.Stages.{IsOfOpening};

use object_store::World;
use run_status::Status;
use std::alloc::Global;
use world_io::Disk;
use world_journal::{AppendFault, Journal, RecoverFault, Recovered, bytes_stand_for_one_journal};
use world_run::same_base;

/// The journal of a disk for the world of a file: one that stands there, where it begins with this world; and
/// where nothing was committed one is begun, and read back.
pub(crate) fn open_served<D: Disk>(
    alloc: Global,
    world: &World,
    disk: &mut D,
) -> Result<Recovered, Status>
    requires starts { MayStart world.now }
    requires quiet { IsQuiet (D.seen disk.old) (D.moments disk.old) }
    ensures found { IfOk result (λ found. (entries : List TickRecord) × HasRecovered entries found
        × Stood (D.seen disk.old) (world_as_read world.now) entries
        × IfSome (D.seen disk.new) (λ bytes. HasJournal found.base entries found.journal.log.gate
        (D.seen disk.new) (D.moments disk.new))) }
    ensures same { IfOk result (λ found. found.base ≡ world_as_read world.now) }
    ensures log { IfOk result (λ found.
        IsLog found.journal.log.gate (D.seen disk.new) (D.moments disk.new)) }
    ensures is_open { IfOk result (λ found. found.journal.log.is_closed ≡ false) }
    ensures opening { (bytes : List ℕ) → Rests bytes (D.seen disk.old) (D.moments disk.old)
        → (base : Stored) (entries : List TickRecord) → StoodAs world.now bytes base entries
        → LeavesSince (IsOpening bytes base entries) (D.moments disk.old) (D.moments disk.new) }
    ensures alike { TellsAlike (D.seen disk.old) (D.seen disk.new) }
    ensures rests { IfErr result (λ status. status ≢ Status.DiskFault
        → IsQuiet (D.seen disk.new) (D.moments disk.new)) }
    ensures only { IfErr result IsOfOpening }
    ensures not_a_journal { IfErr result (λ status. (at : ℕ) → status ≡ Status.NotAJournal at
        → IfSome (D.seen disk.old) (FailsAt at) × (D.seen disk.new ≡ D.seen disk.old)) }
    ensures other { IfErr result (λ status. (at : ℕ) (one given : Option ℕ)
        → status ≡ Status.OtherWorld at one given
        → IfSome (D.seen disk.old) (λ bytes. (base : Stored) × (entries : List TickRecord)
        × IsJournal base entries bytes
        × DifferAt at one given (base_content base) (base_content world.now))) }
    ensures kept { IfErr result (λ status. (at : ℕ) (one given : Option ℕ)
        → status ≡ Status.OtherWorld at one given → IsKept (D.seen disk.old) (D.seen disk.new)) }
    ensures memory { IfErr result (λ status. status ≡ Status.Memory
        → IsKept (D.seen disk.old) (D.seen disk.new)
        ⊎ (Stood (D.seen disk.old) (world_as_read world.now) []
        × IfSome (D.seen disk.new) (IsWholeJournal (world_as_read world.now) []))) }
    ensures right { IfErr result (λ status. (entries : List TickRecord) (bytes : List ℕ)
        → D.seen disk.old ≡ Some bytes → Stood (D.seen disk.old) (world_as_read world.now) entries
        → (Rose (D.faults disk.old) (D.faults disk.new) → ⊥) → status ≡ Status.Memory) }
    ensures disk_fault { IfErr result (λ status. status ≡ Status.DiskFault
        → Rose (D.faults disk.old) (D.faults disk.new)) }
    ensures steady { OnOk result (D.faults disk.new ≡ D.faults disk.old) }
    ensures steady_else { IfErr result (λ status. status ≢ Status.DiskFault
        → D.faults disk.new ≡ D.faults disk.old) }
    ensures later { D.faults disk.old ≤ D.faults disk.new }
{
    bytes_stand_for_one_journal();
    match Journal::recover(alloc, disk) {
        Ok(found) => match same_base(alloc, &found.base, world) {
            Ok(()) => Ok(found),
            Err(status) => Err(status),
        },
        Err(RecoverFault::Empty) => match begin(alloc, world, disk) {
            Ok(found) => Ok(found),
            Err(status) => Err(status),
        },
        Err(RecoverFault::DiskFault) => Err(Status::DiskFault),
        Err(RecoverFault::NotAJournal(at)) => Err(Status::NotAJournal(at)),
        Err(RecoverFault::Memory) => Err(Status::Memory),
    }
}

// Begins a journal with this world, and reads it back.
fn begin<D: Disk>(alloc: Global, world: &World, disk: &mut D) -> Result<Recovered, Status>
    requires starts { MayStart world.now }
    requires none { IsEmptyDisk (D.seen disk.old) (D.moments disk.old) }
    ensures found { IfOk result (λ found. (entries : List TickRecord) × HasRecovered entries found
        × IfSome (D.seen disk.new) (λ bytes. HasJournal found.base entries found.journal.log.gate
        (D.seen disk.new) (D.moments disk.new))
        × IfSome (D.seen disk.old) (λ bytes. entries ≡ [])) }
    ensures same { IfOk result (λ found. found.base ≡ world_as_read world.now) }
    ensures log { IfOk result (λ found.
        IsLog found.journal.log.gate (D.seen disk.new) (D.moments disk.new)) }
    ensures is_open { IfOk result (λ found. found.journal.log.is_closed ≡ false) }
    ensures opening { (bytes : List ℕ) → IsEmpty bytes
        → Rests bytes (D.seen disk.old) (D.moments disk.old)
        → LeavesSince (IsEmptyOrBase (world_as_read world.now)) (D.moments disk.old) (D.moments disk.new) }
    ensures alike { TellsAlike (D.seen disk.old) (D.seen disk.new) }
    ensures rests { IfErr result (λ status. status ≢ Status.DiskFault
        → IsQuiet (D.seen disk.new) (D.moments disk.new)) }
    ensures only { IfErr result IsOfOpening }
    ensures told { IfErr result (λ status. (status ≡ Status.Memory) ⊎ (status ≡ Status.DiskFault)
        ⊎ (D.seen disk.old ≡ None)) }
    ensures memory { IfErr result (λ status. status ≡ Status.Memory
        → (D.seen disk.new ≡ D.seen disk.old)
        ⊎ IfSome (D.seen disk.new) (IsWholeJournal (world_as_read world.now) [])) }
    ensures disk_fault { IfErr result (λ status. status ≡ Status.DiskFault
        → Rose (D.faults disk.old) (D.faults disk.new)) }
    ensures steady { OnOk result (D.faults disk.new ≡ D.faults disk.old) }
    ensures steady_else { IfErr result (λ status. status ≢ Status.DiskFault
        → D.faults disk.new ≡ D.faults disk.old) }
    ensures later { D.faults disk.old ≤ D.faults disk.new }
{
    match Journal::create(alloc, disk, world) {
        Ok(_journal) => match read_back(alloc, world, disk) {
            Ok(found) => Ok(found),
            Err(status) => Err(status),
        },
        Err(AppendFault::Memory) => Err(Status::Memory),
        Err(_) => Err(Status::DiskFault),
    }
}

// Reads the journal that was just begun with this world. Where the disk tells its bytes it is that journal,
// and what ends it is a failed disk or want of memory. A disk that doesn't tell them may give anything: bytes
// that are no journal are refused as such; and for a disk that gives nothing back, though no call of it
// failed, there is no status of its own, so the answer is that of want of memory.
fn read_back<D: Disk>(alloc: Global, world: &World, disk: &mut D) -> Result<Recovered, Status>
    requires starts { MayStart world.now }
    requires quiet { IsQuiet (D.seen disk.old) (D.moments disk.old) }
    requires begun { IfSome (D.seen disk.old) (IsWholeJournal (world_as_read world.now) []) }
    ensures found { IfOk result (λ found. (entries : List TickRecord) × HasRecovered entries found
        × IfSome (D.seen disk.new) (λ bytes. HasJournal found.base entries found.journal.log.gate
        (D.seen disk.new) (D.moments disk.new))
        × IfSome (D.seen disk.old) (λ bytes. entries ≡ [])) }
    ensures same { IfOk result (λ found. found.base ≡ world_as_read world.now) }
    ensures log { IfOk result (λ found.
        IsLog found.journal.log.gate (D.seen disk.new) (D.moments disk.new)) }
    ensures is_open { IfOk result (λ found. found.journal.log.is_closed ≡ false) }
    ensures each_moment { (bytes : List ℕ) → Rests bytes (D.seen disk.old) (D.moments disk.old)
        → LeavesSince (IsJournal (world_as_read world.now) []) (D.moments disk.old) (D.moments disk.new) }
    ensures alike { TellsAlike (D.seen disk.old) (D.seen disk.new) }
    ensures rests { IfErr result (λ status. status ≢ Status.DiskFault
        → IsQuiet (D.seen disk.new) (D.moments disk.new)) }
    ensures only { IfErr result IsOfOpening }
    ensures told { IfErr result (λ status. (status ≡ Status.Memory) ⊎ (status ≡ Status.DiskFault)
        ⊎ (D.seen disk.old ≡ None)) }
    ensures stands { IfErr result (λ status. status ≢ Status.DiskFault
        → IfSome (D.seen disk.new) (IsWholeJournal (world_as_read world.now) [])) }
    ensures disk_fault { IfErr result (λ status. status ≡ Status.DiskFault
        → Rose (D.faults disk.old) (D.faults disk.new)) }
    ensures steady { OnOk result (D.faults disk.new ≡ D.faults disk.old) }
    ensures steady_else { IfErr result (λ status. status ≢ Status.DiskFault
        → D.faults disk.new ≡ D.faults disk.old) }
    ensures later { D.faults disk.old ≤ D.faults disk.new }
{
    match Journal::recover(alloc, disk) {
        Ok(found) => match same_base(alloc, &found.base, world) {
            Ok(()) => Ok(found),
            Err(status) => Err(status),
        },
        Err(RecoverFault::DiskFault) => Err(Status::DiskFault),
        Err(RecoverFault::NotAJournal(at)) => Err(Status::NotAJournal(at)),
        Err(_) => Err(Status::Memory),
    }
}
