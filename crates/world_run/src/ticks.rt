// The ticks of a run, each recorded before its lines are printed.
ghost use Rattle.std.specs.Prelude.{◌≡◌, ◌≢◌, ◌⊎◌, ℕ, ◌+◌, ◌-◌, ◌^◌, ◌<◌, ◌≤◌, false, List, [], ◌∷◌, ◌++◌};
ghost use Rattle.std.specs.Prelude.{length, Option, Some, IfOk, IfErr, IfSome, IfNone, OnOk, OnErr};
ghost use Rattle.std.specs.List.{flat_map};
ghost use Rattle.std.specs.Io.KnownBytes.{Appends};
ghost use Rattle.frame_log.specs.Frames.{IsLog};
ghost use Rattle.object_store.specs.Stored.{Stored};
ghost use Rattle.world_io.specs.Causes.{HasCause, Rose};
ghost use Rattle.world_io.specs.Disk.{TellsAlike};
ghost use Rattle.world_io.specs.Moments.{LeavesSince, Rests};
ghost use Rattle.world_io.specs.Told.{AppendsPrefix};
ghost use Rattle.world_rules.specs.Sound.{HaveSerials};
ghost use Rattle.upload_stream.specs.Streams.{Upload, uploads_after, uploads_at};
ghost use Rattle.judged_uploads.specs.Judging.{with_uploads};
ghost use Rattle.site_limit.specs.FewSites.{HaveFewSites};
ghost use Rattle.hosted_tick.specs.Hosting.{IsHosted, state_of};
ghost use Rattle.record_follows.specs.Courses.{modules_after, world_after};
ghost use Rattle.recorded_tick.specs.Recording.{StandsAt};
ghost use Rattle.std.specs.FinMap.{empty};
ghost use Rattle.tick_journal.specs.BaseForms.{world_as_read};
ghost use Rattle.tick_journal.specs.Contents.{base_content};
ghost use Rattle.tick_journal.specs.TickForms.{tick_as_read};
ghost use Rattle.tick_journal.specs.declared.tick_record.TickRecord.{TickRecord as Recorded};
ghost use Rattle.world_journal.specs.Faults.{FailsAt};
ghost use Rattle.world_journal.specs.Journals.{HasJournal, IsBeforeOrAfter, IsJournal, IsQuiet};
ghost use Rattle.world_journal.specs.Journals.{IsWholeJournal, MayFollow};
ghost use Rattle.record_follows.specs.Follows.{after};
ghost use Rattle.run_lines.specs.Lines.{upload_line};
ghost use Rattle.world_run.specs.Runs.{IsKept, Stood};
ghost use Rattle.world_replay.specs.Serials.{HasRunOut};
ghost use Rattle.world_replay.specs.Differing.{DifferAt};
ghost use Rattle.world_run.specs.inner.Held.{Step, step_lines, IsKeptAt, IsStep, Leaves};
ghost use Rattle.world_run.specs.inner.Held.{LeavesPart, MayStart, Prints, last_of};
ghost use Rattle.world_run.specs.inner.Stages.{Continues, IsOfMaking, IsOfTick, IsOfTicks, IsOfJournal};
ghost use Rattle.world_run.specs.inner.Stages.{Grows, GrowsPart};
ghost use Rattle.world_run.specs.inner.Crashes.{Adds, IsCut, Lasts, Loses, Outlasts, Records, StoodAs};

use crate::kept::{Kept, KeptTick};
use crate::opening::{Opening, open_journal};
use hosted_tick::{Hosted, Ticked};
use judged_uploads::JudgedUploads;
use object_store::World;
use player_runs::RunsPlayers;
use recorded_tick::{Recorder, records_may_stand};
use room_step::StepsRooms;
use run_lines::{later_lines, print_uploads};
use run_status::Status;
use site_limit::ticks_keep_the_limit_of_sites;
use std::alloc::{AllocError as NoMemory, Global};
use tick_journal::TickRecord;
use upload_stream::Uploads;
use world_io::{Disk, Failed, Sink, write_all};
use world_journal::{AppendFault, Journal};
use world_replay::exhausted_room;

// The most bytes of a piece of the uploads' lines.
const MOST_PIECE: usize = 65_536;

// No line of an upload is longer.
const MOST_LINE: usize = 64;

/// Opens the journal, prints the opening line, and then runs the ticks.
pub(crate) fn keep_journal<P: RunsPlayers, S: StepsRooms, O: Sink, D: Disk>(
    alloc: Global,
    runner: &P,
    stepper: &S,
    world: World,
    stream: Uploads<'_>,
    ticks: u64,
    out: &mut O,
    disk: &mut D,
) -> Status
    requires runner { P.ready runner.now }
    requires stepper { S.ready stepper.now }
    requires starts { MayStart world }
    requires ticks { ticks ≤ 1000000 }
    requires quiet { IsQuiet (D.seen disk.old) (D.moments disk.old) }
    ensures outlasts { (bytes : List ℕ) → Rests bytes (D.seen disk.old) (D.moments disk.old)
        → (base : Stored) (entries : List Recorded) → StoodAs world bytes base entries
        → Outlasts (O.written out.old) (O.written out.new) stream.entry bytes base entries ticks
        (D.moments disk.old) (D.moments disk.new) }
    ensures rests { result ≢ Status.DiskFault → IsQuiet (D.seen disk.new) (D.moments disk.new) }
    ensures only { IsOfJournal result }
    ensures done { result ≡ Status.Done → (steps : List Step) × (length steps ≡ ticks)
        × Leaves (D.seen disk.old) (D.seen disk.new) (O.written out.old) (O.written out.new)
        stream.entry world steps }
    ensures exhausted { (index : ℕ) → result ≡ Status.IdsExhausted index
        → (steps : List Step) × (length steps < ticks)
        × (leaves : Leaves (D.seen disk.old) (D.seen disk.new) (O.written out.old) (O.written out.new)
        stream.entry world steps)
        × HasRunOut (last_of leaves.prints.first steps).world index }
    ensures journal_refused { (at : ℕ) → result ≡ Status.NotAJournal at
        → IfSome (D.seen disk.old) (FailsAt at) × (D.seen disk.new ≡ D.seen disk.old)
        × (O.written out.new ≡ O.written out.old) }
    ensures other { (at : ℕ) (one given : Option ℕ) → result ≡ Status.OtherWorld at one given
        → IfSome (D.seen disk.old) (λ bytes. (base : Stored) × (entries : List Recorded)
        × IsJournal base entries bytes × DifferAt at one given (base_content base) (base_content world)) }
    ensures other_kept { (at : ℕ) (one given : Option ℕ) → result ≡ Status.OtherWorld at one given
        → IsKept (D.seen disk.old) (D.seen disk.new) × (O.written out.new ≡ O.written out.old) }
    ensures write_fault { result ≡ Status.WriteFault → Rose (O.faults out.old) (O.faults out.new) }
    ensures disk_fault { result ≡ Status.DiskFault → Rose (D.faults disk.old) (D.faults disk.new) }
    ensures complete { (bytes : List ℕ) (entries : List Recorded) → D.seen disk.old ≡ Some bytes
        → Stood (D.seen disk.old) (world_as_read world) entries
        → (Rose (O.faults out.old) (O.faults out.new) → ⊥)
        → (Rose (D.faults disk.old) (D.faults disk.new) → ⊥)
        → (result ≡ Status.Done) ⊎ (result ≡ Status.Memory)
        ⊎ ((index : ℕ) × (result ≡ Status.IdsExhausted index)) }
    ensures write_stopped { result ≡ Status.WriteFault → (steps : List Step) × (length steps ≤ ticks)
        × LeavesPart (D.seen disk.old) (D.seen disk.new) (O.written out.old) (O.written out.new)
        stream.entry world steps }
    ensures disk_stopped { result ≡ Status.DiskFault → (O.written out.new ≡ O.written out.old)
        ⊎ ((steps : List Step) × (length steps ≤ ticks) × Prints (D.seen disk.old)
        (O.written out.old) (O.written out.new) stream.entry world steps) }
    ensures memory_stopped { result ≡ Status.Memory
        → (IsKept (D.seen disk.old) (D.seen disk.new) × (O.written out.new ≡ O.written out.old))
        ⊎ ((steps : List Step) × (length steps ≤ ticks) × Leaves (D.seen disk.old) (D.seen disk.new)
        (O.written out.old) (O.written out.new) stream.entry world steps) }
    ensures write_steady { result ≢ Status.WriteFault → O.faults out.new ≡ O.faults out.old }
    ensures disk_steady { result ≢ Status.DiskFault → D.faults disk.new ≡ D.faults disk.old }
    ensures out_later { O.faults out.old ≤ O.faults out.new }
    ensures disk_later { D.faults disk.old ≤ D.faults disk.new }
{
    let Opening { kept, line } = match open_journal(alloc, world, disk) {
        Ok(opening) => opening,
        Err(status) => return status,
    };
    let Ok(()) = write_all(out, &line) else {
        return Status::WriteFault;
    };
    run_ticks(alloc, runner, stepper, kept, stream, ticks, out, disk)
}

// Runs so many ticks.
fn run_ticks<P: RunsPlayers, S: StepsRooms, O: Sink, D: Disk>(
    alloc: Global,
    runner: &P,
    stepper: &S,
    first: Kept,
    stream: Uploads<'_>,
    ticks: u64,
    out: &mut O,
    disk: &mut D,
) -> Status
    requires runner { P.ready runner.now }
    requires stepper { S.ready stepper.now }
    requires hosted { IsHosted first.hosted.world }
    requires few { HaveFewSites first.hosted.world }
    requires recorder { StandsAt first.recorder first.hosted.world }
    requires tick { first.hosted.world.tick + ticks < 2 ^ 64 - 1 }
    requires is_open { first.journal.log.is_closed ≡ false }
    requires log { IsLog first.journal.log.gate (D.seen disk.old) (D.moments disk.old) }
    ensures lasts { Lasts (O.written out.old) (O.written out.new) stream.entry first ticks
        (D.seen disk.old) (D.moments disk.old) (D.moments disk.new) }
    ensures rests { result ≢ Status.DiskFault → IsQuiet (D.seen disk.new) (D.moments disk.new) }
    ensures only { IsOfTicks result }
    ensures done { result ≡ Status.Done → (steps : List Step) × (length steps ≡ ticks)
        × Grows (O.written out.old) (O.written out.new) stream.entry first.hosted steps
        × Continues first (D.seen disk.old) (D.moments disk.old) (D.seen disk.new) steps }
    ensures exhausted { (index : ℕ) → result ≡ Status.IdsExhausted index
        → (steps : List Step) × (length steps < ticks)
        × Grows (O.written out.old) (O.written out.new) stream.entry first.hosted steps
        × Continues first (D.seen disk.old) (D.moments disk.old) (D.seen disk.new) steps
        × HasRunOut (last_of first.hosted steps).world index }
    ensures memory { result ≡ Status.Memory → (steps : List Step) × (length steps ≤ ticks)
        × Grows (O.written out.old) (O.written out.new) stream.entry first.hosted steps
        × Continues first (D.seen disk.old) (D.moments disk.old) (D.seen disk.new) steps }
    ensures write_stopped { result ≡ Status.WriteFault → (steps : List Step) × (length steps ≤ ticks)
        × GrowsPart (O.written out.old) (O.written out.new) stream.entry first.hosted steps
        × Continues first (D.seen disk.old) (D.moments disk.old) (D.seen disk.new) steps }
    ensures disk_stopped { result ≡ Status.DiskFault → (steps : List Step) × (length steps ≤ ticks)
        × Grows (O.written out.old) (O.written out.new) stream.entry first.hosted steps }
    ensures write_fault { result ≡ Status.WriteFault → Rose (O.faults out.old) (O.faults out.new) }
    ensures disk_fault { result ≡ Status.DiskFault → Rose (D.faults disk.old) (D.faults disk.new) }
    ensures write_steady { result ≢ Status.WriteFault → O.faults out.new ≡ O.faults out.old }
    ensures disk_steady { result ≢ Status.DiskFault → D.faults disk.new ≡ D.faults disk.old }
    ensures out_later { O.faults out.old ≤ O.faults out.new }
    ensures disk_later { D.faults disk.old ≤ D.faults disk.new }
{
    let mut kept = first;
    let mut left = stream;
    for _turn in 0..ticks {
        match one_tick(alloc, runner, stepper, kept, &mut left, out, disk) {
            Ok(next) => kept = next,
            Err(status) => return status,
        }
    }
    Status::Done
}

// Runs one tick: it is recorded, and then its lines are printed.
fn one_tick<P: RunsPlayers, S: StepsRooms, O: Sink, D: Disk>(
    alloc: Global,
    runner: &P,
    stepper: &S,
    kept: Kept,
    stream: &mut Uploads<'_>,
    out: &mut O,
    disk: &mut D,
) -> Result<Kept, Status>
    requires runner { P.ready runner.now }
    requires stepper { S.ready stepper.now }
    requires hosted { IsHosted kept.hosted.world }
    requires few { HaveFewSites kept.hosted.world }
    requires recorder { StandsAt kept.recorder kept.hosted.world }
    requires tick { kept.hosted.world.tick < 2 ^ 64 - 1 }
    requires is_open { kept.journal.log.is_closed ≡ false }
    requires log { IsLog kept.journal.log.gate (D.seen disk.old) (D.moments disk.old) }
    ensures step { IfOk result (λ next. (step : Step) × (step.after ≡ next.hosted)
        × IsStep stream.old kept.hosted step × HaveSerials kept.hosted.world.rooms
        × Appends (O.written out.old) (O.written out.new) (step_lines step)
        × ((base : Stored) (entries : List Recorded)
        → IsKeptAt base entries kept (D.seen disk.old) (D.moments disk.old)
        → IsKeptAt base (entries ++ step.recorded ∷ []) next (D.seen disk.new) (D.moments disk.new))
        × Records kept (D.seen disk.old) (D.moments disk.old) (D.moments disk.new) step.recorded
        × ((base : Stored) (entries : List Recorded)
        → IsKeptAt base entries kept (D.seen disk.old) (D.moments disk.old)
        → HasJournal base entries kept.journal.log.gate (D.seen disk.old) (D.moments disk.old)
        → HasJournal base (entries ++ step.recorded ∷ []) next.journal.log.gate
        (D.seen disk.new) (D.moments disk.new))) }
    ensures cut { IfErr result (λ status. ((D.moments disk.new ≡ D.moments disk.old)
        × (O.written out.new ≡ O.written out.old))
        ⊎ IsCut (O.written out.old) (O.written out.new) stream.old kept
        (D.seen disk.old) (D.moments disk.old) (D.moments disk.new)) }
    ensures hosted { IfOk result (λ next. IsHosted next.hosted.world) }
    ensures few { IfOk result (λ next. HaveFewSites next.hosted.world) }
    ensures recorder { IfOk result (λ next. StandsAt next.recorder next.hosted.world) }
    ensures is_open { IfOk result (λ next. next.journal.log.is_closed ≡ false) }
    ensures log { IfOk result (λ next. IsLog next.journal.log.gate (D.seen disk.new) (D.moments disk.new)) }
    ensures left { OnOk result (stream.new ≡ uploads_after kept.hosted.world.tick stream.old) }
    ensures rests { IfErr result (λ status. status ≢ Status.DiskFault
        → IsQuiet (D.seen disk.new) (D.moments disk.new)) }
    ensures only { IfErr result IsOfTick }
    ensures memory { IfErr result (λ status. status ≡ Status.Memory
        → (D.seen disk.new ≡ D.seen disk.old) × (O.written out.new ≡ O.written out.old)) }
    ensures exhausted { IfErr result (λ status. (index : ℕ) → status ≡ Status.IdsExhausted index
        → HasRunOut kept.hosted.world index × (D.seen disk.new ≡ D.seen disk.old)
        × (O.written out.new ≡ O.written out.old)) }
    ensures disk_stopped { IfErr result (λ status. status ≡ Status.DiskFault
        → O.written out.new ≡ O.written out.old) }
    ensures disk_fault { IfErr result (λ status. status ≡ Status.DiskFault
        → Rose (D.faults disk.old) (D.faults disk.new)) }
    ensures write_stopped { IfErr result (λ status. status ≡ Status.WriteFault
        → (step : Step) × IsStep stream.old kept.hosted step
        × HaveSerials kept.hosted.world.rooms × IsHosted step.after.world
        × AppendsPrefix (O.written out.old) (O.written out.new) (step_lines step)
        × ((base : Stored) (entries : List Recorded)
        → IsKeptAt base entries kept (D.seen disk.old) (D.moments disk.old)
        → IfSome (D.seen disk.new) (IsWholeJournal base (entries ++ step.recorded ∷ [])))) }
    ensures write_fault { IfErr result (λ status. status ≡ Status.WriteFault
        → Rose (O.faults out.old) (O.faults out.new)) }
    ensures steady { OnOk result ((O.faults out.new ≡ O.faults out.old)
        × (D.faults disk.new ≡ D.faults disk.old)) }
    ensures write_steady { IfErr result (λ status. status ≢ Status.WriteFault
        → O.faults out.new ≡ O.faults out.old) }
    ensures disk_steady { IfErr result (λ status. status ≢ Status.DiskFault
        → D.faults disk.new ≡ D.faults disk.old) }
    ensures out_later { O.faults out.old ≤ O.faults out.new }
    ensures disk_later { D.faults disk.old ≤ D.faults disk.new }
{
    let uploads = stream.take_tick(kept.hosted.world().tick());
    let done = match record_tick(alloc, runner, stepper, kept, uploads, disk) {
        Ok(done) => done,
        Err(status) => return Err(status),
    };
    let KeptTick {
        kept: next,
        uploads,
        lines,
        room,
    } = done;
    match print_lines(out, &uploads, room, &lines) {
        Ok(()) => Ok(next),
        Err(_) => Err(Status::WriteFault),
    }
}

/// Makes the tick after a world that is kept, with these uploads, and records it in the world's journal.
///
/// The answer is a status that is not `Done`: `IdsExhausted` where a room has used up its serials,
/// `DiskFault`, or `Memory`.
pub fn record_tick<'a, P: RunsPlayers, S: StepsRooms, D: Disk>(
    alloc: Global,
    runner: &P,
    stepper: &S,
    kept: Kept,
    uploads: Uploads<'a>,
    disk: &mut D,
) -> Result<KeptTick<'a>, Status>
    requires runner { P.ready runner.now }
    requires stepper { S.ready stepper.now }
    requires hosted { IsHosted kept.hosted.world }
    requires few { HaveFewSites kept.hosted.world }
    requires recorder { StandsAt kept.recorder kept.hosted.world }
    requires tick { kept.hosted.world.tick < 2 ^ 64 - 1 }
    requires is_open { kept.journal.log.is_closed ≡ false }
    requires log { IsLog kept.journal.log.gate (D.seen disk.old) (D.moments disk.old) }
    ensures added { IfOk result (λ done. Adds uploads.entry kept (D.seen disk.old) (D.moments disk.old)
        done.kept done.uploads done.lines.items (D.seen disk.new) (D.moments disk.new)) }
    ensures hosted { IfOk result (λ done. IsHosted done.kept.hosted.world) }
    ensures few { IfOk result (λ done. HaveFewSites done.kept.hosted.world) }
    ensures recorder { IfOk result (λ done. StandsAt done.kept.recorder done.kept.hosted.world) }
    ensures is_open { IfOk result (λ done. done.kept.journal.log.is_closed ≡ false) }
    ensures log { IfOk result
        (λ done. IsLog done.kept.journal.log.gate (D.seen disk.new) (D.moments disk.new)) }
    ensures room { IfOk result (λ done. done.room.items ≡ []) }
    ensures lost { IfErr result (λ status. (D.moments disk.new ≡ D.moments disk.old)
        ⊎ Loses uploads.entry kept (D.seen disk.old) (D.moments disk.old) (D.moments disk.new)) }
    ensures only { IfErr result IsOfMaking }
    ensures exhausted { IfErr result (λ status. (index : ℕ) → status ≡ Status.IdsExhausted index
        → HasRunOut kept.hosted.world index) }
    ensures same { IfErr result (λ status. status ≢ Status.DiskFault
        → (D.seen disk.new ≡ D.seen disk.old) × (D.moments disk.new ≡ D.moments disk.old)) }
    ensures disk_fault { IfErr result (λ status. status ≡ Status.DiskFault
        → Rose (D.faults disk.old) (D.faults disk.new)) }
    ensures steady { OnOk result (D.faults disk.new ≡ D.faults disk.old) }
    ensures steady_else { IfErr result (λ status. status ≢ Status.DiskFault
        → D.faults disk.new ≡ D.faults disk.old) }
    ensures later { D.faults disk.old ≤ D.faults disk.new }
{
    let Kept {
        hosted,
        mut recorder,
        mut journal,
    } = kept;
    if let Some(index) = exhausted_room(hosted.world()) {
        return Err(Status::IdsExhausted(index));
    }
    let Ok(made) = make_tick(alloc, runner, stepper, hosted, &mut recorder, uploads) else {
        return Err(Status::Memory);
    };
    let Made { hosted, told } = made;
    let Told {
        uploads,
        entry,
        lines,
        room,
    } = told;
    match append(alloc, &mut journal, &uploads, &entry, disk) {
        Ok(()) => Ok(KeptTick {
            kept: Kept {
                hosted,
                recorder,
                journal,
            },
            uploads,
            lines,
            room,
        }),
        Err(status) => Err(status),
    }
}

// What is told of a tick: its record, but for the uploads, which are lent from their stream; and its lines,
// but for those of the uploads, for which there is room.
#[derive(Drop)]
struct Told<'a> {
    uploads: JudgedUploads<'a>,
    entry: TickRecord,
    lines: Vec<u8>,
    room: Vec<u8>,
}

// The world after a tick, and what is told of the tick.
#[derive(Drop)]
struct Made<'a> {
    hosted: Hosted,
    told: Told<'a>,
}

// Room for a piece of the lines of so many uploads, 64 KiB at most.
fn room_for(alloc: Global, uploads: usize) -> Result<Vec<u8>, NoMemory>
    ensures { IfOk result (λ room. room.items ≡ []) }
{
    Vec::with_capacity(alloc, uploads.min(MOST_PIECE / MOST_LINE) * MOST_LINE)
}

// Makes the tick after a world with its uploads. The recorder, which stood at the world before, is led to the
// one after.
fn make_tick<'a, P: RunsPlayers, S: StepsRooms>(
    alloc: Global,
    runner: &P,
    stepper: &S,
    hosted: Hosted,
    recorder: &mut Recorder,
    uploads: Uploads<'a>,
) -> Result<Made<'a>, NoMemory>
    requires runner { P.ready runner.now }
    requires stepper { S.ready stepper.now }
    requires hosted { IsHosted hosted.world }
    requires few { HaveFewSites hosted.world }
    requires recorder { StandsAt recorder.old hosted.world }
    requires tick { hosted.world.tick < 2 ^ 64 - 1 }
    requires serials { HaveSerials hosted.world.rooms }
    ensures step { IfOk result (λ made. (step : Step) × (step.after ≡ made.hosted)
        × (step.recorded ≡ tick_as_read (with_uploads made.told.uploads made.told.entry))
        × ((stream : List Upload) → uploads.entry ≡ uploads_at hosted.world.tick stream
        → IsStep stream hosted step)
        × (step_lines step ≡ flat_map upload_line made.told.uploads ++ made.told.lines.items)
        × (step.uploads ≡ made.told.uploads)) }
    ensures hosted { IfOk result (λ made. IsHosted made.hosted.world) }
    ensures few { IfOk result (λ made. HaveFewSites made.hosted.world) }
    ensures recorder { IfOk result (λ made. StandsAt recorder.new made.hosted.world) }
    ensures none { IfOk result (λ made. made.told.entry.uploads ≡ []) }
    ensures room { IfOk result (λ made. made.told.room.items ≡ []) }
    ensures follows { IfOk result (λ made. MayFollow (world_as_read hosted.world)
        (with_uploads made.told.uploads made.told.entry)) }
    ensures leads { IfOk result (λ made. after (world_as_read hosted.world)
        (tick_as_read (with_uploads made.told.uploads made.told.entry))
        ≡ world_as_read made.hosted.world) }
    ensures modules { IfOk result (λ made. (entries : List Recorded)
        → (state_of hosted).modules ≡ modules_after empty entries
        → (state_of made.hosted).modules ≡ modules_after empty
        (entries ++ tick_as_read (with_uploads made.told.uploads made.told.entry) ∷ [])) }
{
    records_may_stand();
    ticks_keep_the_limit_of_sites();
    let done = hosted.tick(alloc, runner, stepper, uploads)?;
    let lines = later_lines(alloc, &done.runs, done.hosted.world())?;
    let room = room_for(alloc, done.uploads.count())?;
    let Ticked {
        hosted,
        uploads,
        runs,
    } = done;
    let entry = recorder.record(alloc, hosted.world(), Vec::new(alloc), runs)?;
    recorder.lead(alloc, &entry)?;
    Ok(Made {
        hosted,
        told: Told {
            uploads,
            entry,
            lines,
            room,
        },
    })
}

// Prints the lines of a tick: those of the uploads in pieces for which there is room, and then the others.
fn print_lines<O: Sink>(
    out: &mut O,
    uploads: &JudgedUploads<'_>,
    room: Vec<u8>,
    lines: &[u8],
) -> Result<(), Failed>
    requires { room.items ≡ [] }
    ensures whole { OnOk result (Appends (O.written out.old) (O.written out.new)
        (flat_map upload_line uploads.now ++ lines.now)) }
    ensures cut { OnErr result (AppendsPrefix (O.written out.old) (O.written out.new)
        (flat_map upload_line uploads.now ++ lines.now)) }
    ensures cause { HasCause (O.faults out.old) (O.faults out.new) result }
{
    print_uploads(out, uploads, room)?;
    write_all(out, lines)
}

// Records a tick in its journal.
fn append<D: Disk>(
    alloc: Global,
    journal: &mut Journal,
    uploads: &JudgedUploads<'_>,
    entry: &TickRecord,
    disk: &mut D,
) -> Result<(), Status>
    requires none { entry.now.uploads ≡ [] }
    requires is_open { journal.old.log.is_closed ≡ false }
    requires log { IsLog journal.old.log.gate (D.seen disk.old) (D.moments disk.old) }
    ensures recorded { OnOk result ((base : Stored) (entries : List Recorded)
        → HasJournal base entries journal.old.log.gate (D.seen disk.old) (D.moments disk.old)
        → MayFollow (world_after base entries) (with_uploads uploads.now entry.now)
        → HasJournal base (entries ++ tick_as_read (with_uploads uploads.now entry.now) ∷ [])
        journal.new.log.gate (D.seen disk.new) (D.moments disk.new)) }
    ensures each_moment { (base : Stored) (entries : List Recorded)
        → HasJournal base entries journal.old.log.gate (D.seen disk.old) (D.moments disk.old)
        → MayFollow (world_after base entries) (with_uploads uploads.now entry.now)
        → LeavesSince (IsBeforeOrAfter base entries (tick_as_read (with_uploads uploads.now entry.now)))
        (D.moments disk.old) (D.moments disk.new) }
    ensures log { OnOk result (IsLog journal.new.log.gate (D.seen disk.new) (D.moments disk.new)) }
    ensures is_open { OnOk result (journal.new.log.is_closed ≡ false) }
    ensures alike { TellsAlike (D.seen disk.old) (D.seen disk.new) }
    ensures only { IfErr result (λ status. (status ≡ Status.Memory) ⊎ (status ≡ Status.DiskFault)) }
    ensures memory { IfErr result (λ status. status ≡ Status.Memory
        → (D.seen disk.new ≡ D.seen disk.old) × (D.moments disk.new ≡ D.moments disk.old)
        × (D.faults disk.new ≡ D.faults disk.old)) }
    ensures disk_fault { IfErr result (λ status. status ≡ Status.DiskFault
        → Rose (D.faults disk.old) (D.faults disk.new)) }
    ensures steady { OnOk result (D.faults disk.new ≡ D.faults disk.old) }
    ensures later { D.faults disk.old ≤ D.faults disk.new }
{
    match journal.append_judged(alloc, disk, uploads, entry) {
        Ok(()) => Ok(()),
        Err(AppendFault::Memory) => Err(Status::Memory),
        Err(_) => Err(Status::DiskFault),
    }
}
