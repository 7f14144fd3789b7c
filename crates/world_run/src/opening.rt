// The opening of a journal: one that stands is gone on with, and else one is begun.
ghost use Rattle.std.specs.Prelude.{◌≡◌, ◌≢◌, ◌⊎◌, ℕ, ◌≤◌, ◌<◌, ◌^◌, List, [], slice_get, Option, Some, IfOk};
ghost use Rattle.std.specs.Prelude.{IfErr, IfSome, IfNone, OnOk};
ghost use Rattle.frame_log.specs.Frames.{IsEmpty, IsEmptyDisk};
ghost use Rattle.object_store.specs.Stored.{Stored};
ghost use Rattle.recorded_tick.specs.Recording.{StandsAt};
ghost use Rattle.tick_journal.specs.BaseForms.{HasBaseForm, world_as_read};
ghost use Rattle.tick_journal.specs.Contents.{base_content};
ghost use Rattle.tick_journal.specs.declared.tick_record.TickRecord.{TickRecord};
ghost use Rattle.world_io.specs.Causes.{Rose};
ghost use Rattle.world_journal.specs.Faults.{FailsAt};
ghost use Rattle.world_journal.specs.Journals.{IsEmptyOrBase, IsJournal, IsQuiet, MayBegin};
ghost use Rattle.world_journal.specs.Recovering.{HasRecovered};
ghost use Rattle.run_lines.specs.Lines.{start_line as start_line_of};
ghost use Rattle.world_replay.specs.Differing.{DifferAt};
ghost use Rattle.world_run.specs.Runs.{IsKept, Stood};
ghost use Rattle.world_run.specs.inner.Held.{IsAt, IsKeptAt, MayStart};
ghost use Rattle.world_run.specs.inner.Stages.{IsOfOpening};
ghost use Rattle.world_run.specs.Images.{IsOpening};
ghost use Rattle.world_run.specs.inner.Crashes.{StoodAs};
ghost use Rattle.world_io.specs.Disk.{TellsAlike};
ghost use Rattle.world_io.specs.Moments.{LeavesSince, Rests};

use crate::kept::Kept;
use hosted_tick::Hosted;
use object_store::World;
use recorded_tick::{Recorder, courses_can_be_hosted, courses_have_accepted_modules};
use run_lines::start_line;
use run_status::Status;
use std::alloc::{AllocError as NoMemory, Global};
use tick_journal::{bases_are_one, write_base};
use world_io::Disk;
use world_journal::{
    AppendFault, Journal, RecoverFault, Recovered, UploadCounts, bytes_stand_for_one_journal,
};
use world_replay::{byte_at, first_difference};

/// A journal that is open, and the line that is printed for it.
#[derive(Drop)]
pub(crate) struct Opening {
    pub kept: Kept,
    pub line: Vec<u8>,
}

/// Opens the journal of a disk for the world of a file: it is begun on a disk on which nothing was committed,
/// and else gone on with, where it begins with this world.
pub(crate) fn open_journal<D: Disk>(
    alloc: Global,
    world: World,
    disk: &mut D,
) -> Result<Opening, Status>
    requires starts { MayStart world }
    requires quiet { IsQuiet (D.seen disk.old) (D.moments disk.old) }
    ensures opening { (bytes : List ℕ) → Rests bytes (D.seen disk.old) (D.moments disk.old)
        → (base : Stored) (entries : List TickRecord) → StoodAs world bytes base entries
        → LeavesSince (IsOpening bytes base entries) (D.moments disk.old) (D.moments disk.new) }
    ensures alike { TellsAlike (D.seen disk.old) (D.seen disk.new) }
    ensures opened { IfOk result (λ opening. (entries : List TickRecord)
        × Stood (D.seen disk.old) (world_as_read world) entries
        × IsKeptAt (world_as_read world) entries opening.kept (D.seen disk.new) (D.moments disk.new)) }
    ensures tick { IfOk result (λ opening. opening.kept.hosted.world.tick < 2 ^ 63) }
    ensures line { IfOk result
        (λ opening. opening.line.items ≡ start_line_of opening.kept.hosted.world) }
    ensures rests { IfErr result (λ status. status ≢ Status.DiskFault
        → IsQuiet (D.seen disk.new) (D.moments disk.new)) }
    ensures only { IfErr result IsOfOpening }
    ensures not_a_journal { IfErr result (λ status. (at : ℕ) → status ≡ Status.NotAJournal at
        → IfSome (D.seen disk.old) (FailsAt at) × (D.seen disk.new ≡ D.seen disk.old)) }
    ensures other { IfErr result (λ status. (at : ℕ) (one given : Option ℕ)
        → status ≡ Status.OtherWorld at one given
        → IfSome (D.seen disk.old) (λ bytes. (base : Stored) × (entries : List TickRecord)
        × IsJournal base entries bytes
        × DifferAt at one given (base_content base) (base_content world))) }
    ensures kept { IfErr result (λ status. status ≢ Status.DiskFault
        → IsKept (D.seen disk.old) (D.seen disk.new)) }
    ensures right { IfErr result (λ status. (entries : List TickRecord) (bytes : List ℕ)
        → D.seen disk.old ≡ Some bytes → Stood (D.seen disk.old) (world_as_read world) entries
        → (Rose (D.faults disk.old) (D.faults disk.new) → ⊥) → status ≡ Status.Memory) }
    ensures disk_fault { IfErr result (λ status. status ≡ Status.DiskFault
        → Rose (D.faults disk.old) (D.faults disk.new)) }
    ensures steady { OnOk result (D.faults disk.new ≡ D.faults disk.old) }
    ensures steady_else { IfErr result (λ status. status ≢ Status.DiskFault
        → D.faults disk.new ≡ D.faults disk.old) }
    ensures later { D.faults disk.old ≤ D.faults disk.new }
{
    bytes_stand_for_one_journal();
    match Journal::recover(alloc, disk) {
        Ok(found) => match go_on(alloc, &world, found) {
            Ok(opening) => Ok(opening),
            Err(status) => Err(status),
        },
        Err(RecoverFault::Empty) => match begin(alloc, world, disk) {
            Ok(opening) => Ok(opening),
            Err(status) => Err(status),
        },
        Err(RecoverFault::DiskFault) => Err(Status::DiskFault),
        Err(RecoverFault::NotAJournal(at)) => Err(Status::NotAJournal(at)),
        Err(RecoverFault::Memory) => Err(Status::Memory),
    }
}

// Begins a journal with the world of a file.
fn begin<D: Disk>(alloc: Global, world: World, disk: &mut D) -> Result<Opening, Status>
    requires starts { MayStart world }
    requires none { IsEmptyDisk (D.seen disk.old) (D.moments disk.old) }
    ensures opening { (bytes : List ℕ) → IsEmpty bytes
        → Rests bytes (D.seen disk.old) (D.moments disk.old)
        → LeavesSince (IsEmptyOrBase (world_as_read world)) (D.moments disk.old) (D.moments disk.new) }
    ensures alike { TellsAlike (D.seen disk.old) (D.seen disk.new) }
    ensures opened { IfOk result (λ opening.
        IsKeptAt (world_as_read world) [] opening.kept (D.seen disk.new) (D.moments disk.new)) }
    ensures tick { IfOk result (λ opening. opening.kept.hosted.world.tick < 2 ^ 63) }
    ensures line { IfOk result
        (λ opening. opening.line.items ≡ start_line_of opening.kept.hosted.world) }
    ensures rests { IfErr result (λ status. status ≢ Status.DiskFault
        → IsQuiet (D.seen disk.new) (D.moments disk.new)) }
    ensures only { IfErr result (λ status. (status ≡ Status.Memory) ⊎ (status ≡ Status.DiskFault)) }
    ensures memory { IfErr result (λ status. status ≡ Status.Memory → D.seen disk.new ≡ D.seen disk.old) }
    ensures disk_fault { IfErr result (λ status. status ≡ Status.DiskFault
        → Rose (D.faults disk.old) (D.faults disk.new)) }
    ensures steady { OnOk result (D.faults disk.new ≡ D.faults disk.old) }
    ensures steady_else { IfErr result (λ status. status ≡ Status.Memory
        → D.faults disk.new ≡ D.faults disk.old) }
    ensures later { D.faults disk.old ≤ D.faults disk.new }
{
    let Ok(line) = start_line(alloc, &world) else {
        return Err(Status::Memory);
    };
    let Ok(recorder) = Recorder::of(alloc, &world) else {
        return Err(Status::Memory);
    };
    match Journal::create(alloc, disk, &world) {
        Ok(journal) => Ok(Opening {
            kept: Kept {
                hosted: Hosted::new(alloc, world),
                recorder,
                journal,
            },
            line,
        }),
        Err(AppendFault::Memory) => Err(Status::Memory),
        Err(_) => Err(Status::DiskFault),
    }
}

// Goes on with a journal, where it begins with the world of a file.
fn go_on(alloc: Global, world: &World, found: Recovered) -> Result<Opening, Status>
    requires starts { MayStart world.now }
    requires found { (entries : List TickRecord) × HasRecovered entries found }
    ensures at_end { IfOk result (λ opening. (entries : List TickRecord) → HasRecovered entries found
        → IsAt (world_as_read world.now) entries opening.kept.hosted) }
    ensures same { IfOk result (λ opening. found.base ≡ world_as_read world.now) }
    ensures recorder { IfOk result (λ opening. StandsAt opening.kept.recorder opening.kept.hosted.world) }
    ensures journal { IfOk result (λ opening. opening.kept.journal ≡ found.journal) }
    ensures tick { IfOk result (λ opening. opening.kept.hosted.world.tick < 2 ^ 63) }
    ensures line { IfOk result
        (λ opening. opening.line.items ≡ start_line_of opening.kept.hosted.world) }
    ensures other { IfErr result (λ status. (at : ℕ) (one given : Option ℕ)
        → status ≡ Status.OtherWorld at one given
        → DifferAt at one given (base_content found.base) (base_content world.now)) }
    ensures only { IfErr result (λ status. (status ≡ Status.Memory)
        ⊎ ((at : ℕ) × (one : Option ℕ) × (given : Option ℕ) × (status ≡ Status.OtherWorld at one given))) }
{
    same_base(alloc, &found.base, world)?;
    let Ok(opening) = restore(alloc, found) else {
        return Err(Status::Memory);
    };
    Ok(opening)
}

// The last world of a journal, with its modules, and the line that is printed for it.
fn restore(alloc: Global, found: Recovered) -> Result<Opening, NoMemory>
    requires { (entries : List TickRecord) × HasRecovered entries found }
    ensures at_end { IfOk result (λ opening. (entries : List TickRecord) → HasRecovered entries found
        → IsAt found.base entries opening.kept.hosted) }
    ensures recorder { IfOk result (λ opening. StandsAt opening.kept.recorder opening.kept.hosted.world) }
    ensures journal { IfOk result (λ opening. opening.kept.journal ≡ found.journal) }
    ensures tick { IfOk result (λ opening. opening.kept.hosted.world.tick < 2 ^ 63) }
    ensures line { IfOk result
        (λ opening. opening.line.items ≡ start_line_of opening.kept.hosted.world) }
{
    let Resumed { kept, uploads: _ } = resume(alloc, found)?;
    let line = start_line(alloc, kept.hosted.world())?;
    Ok(Opening { kept, line })
}

/// The world that a journal goes on with, and how many uploads each player has in it.
#[derive(Drop)]
pub struct Resumed {
    pub kept: Kept,
    pub uploads: UploadCounts,
}

/// The last world of a journal, with its modules, each decoded, validated and linked again.
pub fn resume(alloc: Global, found: Recovered) -> Result<Resumed, NoMemory>
    requires { (entries : List TickRecord) × HasRecovered entries found }
    ensures at_end { IfOk result (λ resumed. (entries : List TickRecord) → HasRecovered entries found
        → IsAt found.base entries resumed.kept.hosted) }
    ensures recorder { IfOk result (λ resumed. StandsAt resumed.kept.recorder resumed.kept.hosted.world) }
    ensures journal { IfOk result (λ resumed. resumed.kept.journal ≡ found.journal) }
    ensures tick { IfOk result (λ resumed. resumed.kept.hosted.world.tick < 2 ^ 63) }
    ensures uploads { IfOk result (λ resumed. resumed.uploads ≡ found.uploads) }
{
    courses_can_be_hosted();
    courses_have_accepted_modules();
    let Recovered {
        journal,
        base: _,
        world,
        modules,
        uploads,
    } = found;
    let recorder = Recorder::of(alloc, &world)?;
    let hosted = Hosted::restored(alloc, world, modules)?;
    Ok(Resumed {
        kept: Kept {
            hosted,
            recorder,
            journal,
        },
        uploads,
    })
}

/// Whether a journal that begins with the one world begins with the other. Where it doesn't, the answer is
/// `OtherWorld` with the first place at which the two contents differ.
pub fn same_base(alloc: Global, base: &World, world: &World) -> Result<(), Status>
    requires form { HasBaseForm base.now }
    requires begins { MayBegin world.now }
    ensures same { OnOk result (base.now ≡ world_as_read world.now) }
    ensures other { IfErr result (λ status. (at : ℕ) (one given : Option ℕ)
        → status ≡ Status.OtherWorld at one given
        → DifferAt at one given (base_content base.now) (base_content world.now)) }
    ensures only { IfErr result (λ status. (status ≡ Status.Memory)
        ⊎ ((at : ℕ) × (one : Option ℕ) × (given : Option ℕ) × (status ≡ Status.OtherWorld at one given))) }
{
    bases_are_one();
    let Ok(kept) = write_base(alloc, base) else {
        return Err(Status::Memory);
    };
    let Ok(given) = write_base(alloc, world) else {
        return Err(Status::Memory);
    };
    match first_difference(&kept, &given) {
        None => Ok(()),
        Some(place) => Err(Status::OtherWorld {
            at: place as u64,
            kept: byte_at(&kept, place),
            given: byte_at(&given, place),
        }),
    }
}
