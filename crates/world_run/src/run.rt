// A run of ticks, from the bytes of its inputs to the bytes that it writes.
ghost use Rattle.std.specs.Prelude.{◌≡◌, ◌≢◌, ◌⊎◌, ℕ, suc, ◌^◌, ◌≤◌, List, length, map, string_bytes, Option};
ghost use Rattle.std.specs.Prelude.{Some, IfSome};
ghost use Rattle.object_store.specs.Stored.{Stored};
ghost use Rattle.world_io.specs.Causes.{Rose};
ghost use Rattle.world_rules.specs.Sound.{IsSound};
ghost use Rattle.world_rules.specs.World.{World as GameWorld, world_of};
ghost use Rattle.world_form.specs.Files.{WorldForm};
ghost use Rattle.world_form.specs.declared.fault.WorldFault.{WorldFault};
ghost use Rattle.upload_stream.specs.Streams.{Upload as UploadOfStream, UploadList};
ghost use Rattle.tick_journal.specs.Contents.{base_content};
ghost use Rattle.tick_journal.specs.declared.tick_record.TickRecord.{TickRecord};
ghost use Rattle.world_journal.specs.Faults.{FailsAt};
ghost use Rattle.world_journal.specs.Journals.{IsJournal, IsQuiet};
ghost use Rattle.world_replay.specs.Serials.{HasRunOut};
ghost use Rattle.world_run.specs.inner.Held.{Step, Leaves, LeavesPart, Prints, last_of};
ghost use Rattle.command_words.specs.Words.{AreRunBy, Asks, AsksAtLeast};
ghost use Rattle.world_replay.specs.Listed.{listed};
ghost use Rattle.world_replay.specs.Differing.{DifferAt};
ghost use Rattle.world_run.specs.Runs.{ReadsWorld, ReadsFault, ReadsUploads, ReadsBad, IsKept};
ghost use Rattle.world_run.specs.Runs.{IsPastWords, Stood};
ghost use Rattle.world_run.specs.inner.Stages.{IsOfRun, IsPastWorld, IsPastUploads, IsBeforeJournal};
ghost use Rattle.world_run.specs.Ends.{Runs};
ghost use Rattle.world_run.specs.inner.Crashes.{Outlasts, StoodAs};
ghost use Rattle.world_io.specs.Moments.{IsLeftNow, Rests};

use crate::inputs::{Inputs, read_inputs};
use crate::ticks::keep_journal;
use player_runs::RunsPlayers;
use room_step::StepsRooms;
use run_status::Status;
use std::alloc::Global;
use upload_stream::Uploads;
use world_io::{Disk, Sink, Source};

/// Runs N ticks on the world of a file, for the words `run WORLD UPLOADS JOURNAL --ticks N`.
///
/// The whole world file is read first, then the whole upload stream; then the journal on the disk, which has
/// to begin with the world of the file, and which the run goes on with; where there is none it is begun. The
/// sink gets the opening line. In each tick the uploads of its number are judged, each player with a module
/// runs it on what he sees of the world, and what the runs want is ruled. The tick is recorded before its
/// lines are printed.
pub fn run_alone<W: Source, U: Source, O: Sink, D: Disk>(
    alloc: Global,
    words: &[String],
    world: &mut W,
    uploads: &mut U,
    out: &mut O,
    disk: &mut D,
) -> Status
    requires { IsQuiet (D.seen disk.old) (D.moments disk.old) }
    ensures { Runs 1 (map string_bytes words.now)
        (record {
          world = W.left world.old;
          uploads = U.left uploads.old;
          written = O.written out.old;
          disk = D.seen disk.old;
          moments = D.moments disk.old;
          world_faults = W.faults world.old;
          uploads_faults = U.faults uploads.old;
          sink_faults = O.faults out.old;
          disk_faults = D.faults disk.old;
        })
        (record {
          world = W.left world.new;
          uploads = U.left uploads.new;
          written = O.written out.new;
          disk = D.seen disk.new;
          moments = D.moments disk.new;
          world_faults = W.faults world.new;
          uploads_faults = U.faults uploads.new;
          sink_faults = O.faults out.new;
          disk_faults = D.faults disk.new;
        }) result }
{
    run_by(
        alloc,
        &player_runs::InTurn,
        &room_step::InTurn,
        1,
        words,
        world,
        uploads,
        out,
        disk,
    )
}

/// The same, with the players run and the rooms stepped by others, in whatever order. The words may ask for
/// so many workers at most.
pub fn run_by<P: RunsPlayers, S: StepsRooms, W: Source, U: Source, O: Sink, D: Disk>(
    alloc: Global,
    runner: &P,
    stepper: &S,
    most: u32,
    words: &[String],
    world: &mut W,
    uploads: &mut U,
    out: &mut O,
    disk: &mut D,
) -> Status
    requires runner { P.ready runner.now }
    requires stepper { S.ready stepper.now }
    requires quiet { IsQuiet (D.seen disk.old) (D.moments disk.old) }
    ensures { Runs most (map string_bytes words.now)
        (record {
          world = W.left world.old;
          uploads = U.left uploads.old;
          written = O.written out.old;
          disk = D.seen disk.old;
          moments = D.moments disk.old;
          world_faults = W.faults world.old;
          uploads_faults = U.faults uploads.old;
          sink_faults = O.faults out.old;
          disk_faults = D.faults disk.old;
        })
        (record {
          world = W.left world.new;
          uploads = U.left uploads.new;
          written = O.written out.new;
          disk = D.seen disk.new;
          moments = D.moments disk.new;
          world_faults = W.faults world.new;
          uploads_faults = U.faults uploads.new;
          sink_faults = O.faults out.new;
          disk_faults = D.faults disk.new;
        }) result }
{
    run_stored(
        alloc, runner, stepper, most, words, world, uploads, out, disk,
    )
}

// The same, said of worlds as they are stored.
fn run_stored<P: RunsPlayers, S: StepsRooms, W: Source, U: Source, O: Sink, D: Disk>(
    alloc: Global,
    runner: &P,
    stepper: &S,
    most: u32,
    words: &[String],
    world: &mut W,
    uploads: &mut U,
    out: &mut O,
    disk: &mut D,
) -> Status
    requires runner { P.ready runner.now }
    requires stepper { S.ready stepper.now }
    requires quiet { IsQuiet (D.seen disk.old) (D.moments disk.old) }
    // All was done: the journal has the file's world, the records that it had, and one for each tick, with
    // what each player's module emits of what he sees, and the lines were printed.
    ensures done { result ≡ Status.Done → (first : Stored) × (stream : List UploadOfStream)
        × (steps : List Step)
        × Asks most (map string_bytes words.now) (length steps)
        × ReadsWorld (W.left world.old) (W.left world.new) (world_of first) × IsSound first
        × ReadsUploads (U.left uploads.old) (U.left uploads.new) stream
        × Leaves (D.seen disk.old) (D.seen disk.new) (O.written out.old)
        (O.written out.new) stream first steps }
    ensures only { IsOfRun result }

    // Each refusal of an input comes exactly where the input has its fault.
    ensures usage { result ≡ Status.Usage → AreRunBy most (map string_bytes words.now) → ⊥ }
    ensures words { IsPastWords result → AreRunBy most (map string_bytes words.now) }
    ensures world_refused { (fault : WorldFault) → result ≡ Status.World fault
        → ReadsFault (W.left world.old) (W.left world.new) fault }
    ensures world_accepted { IsPastWorld result → (found : GameWorld)
        × ReadsWorld (W.left world.old) (W.left world.new) found }
    ensures uploads_refused { (at : ℕ) → result ≡ Status.Uploads at
        → ReadsBad (U.left uploads.old) (U.left uploads.new) at }
    ensures uploads_accepted { IsPastUploads result → (stream : List UploadOfStream)
        × ReadsUploads (U.left uploads.old) (U.left uploads.new) stream }
    ensures journal_refused { (at : ℕ) → result ≡ Status.NotAJournal at
        → IfSome (D.seen disk.old) (FailsAt at) × (D.seen disk.new ≡ D.seen disk.old)
        × (O.written out.new ≡ O.written out.old) }
    ensures other { (at : ℕ) (one given : Option ℕ) → result ≡ Status.OtherWorld at one given
        → (first : Stored) × ReadsWorld (W.left world.old) (W.left world.new) (world_of first)
        × IsSound first × IfSome (D.seen disk.old) (λ bytes. (base : Stored) × (entries : List TickRecord)
        × IsJournal base entries bytes × DifferAt at one given (base_content base) (base_content first)) }
    ensures other_kept { (at : ℕ) (one given : Option ℕ) → result ≡ Status.OtherWorld at one given
        → IsKept (D.seen disk.old) (D.seen disk.new) × (O.written out.new ≡ O.written out.old) }

    // Before a tick that is asked for the room is the first whose serials are used up, and all ticks before
    // it were done.
    ensures exhausted { (index : ℕ) → result ≡ Status.IdsExhausted index
        → (first : Stored) × (stream : List UploadOfStream) × (steps : List Step)
        × AsksAtLeast most (map string_bytes words.now) (suc (length steps))
        × ReadsWorld (W.left world.old) (W.left world.new) (world_of first) × IsSound first
        × ReadsUploads (U.left uploads.old) (U.left uploads.new) stream
        × (leaves : Leaves (D.seen disk.old) (D.seen disk.new) (O.written out.old)
        (O.written out.new) stream first steps)
        × HasRunOut (last_of leaves.prints.first steps).world index }

    // A fault comes only where that object's count rose, and that of the upload stream only where the world
    // file was accepted.
    ensures read_fault { result ≡ Status.ReadFault
        → (Rose (W.faults world.old) (W.faults world.new) × (U.left uploads.new ≡ U.left uploads.old))
        ⊎ (Rose (U.faults uploads.old)
        (U.faults uploads.new)
        × ((found : GameWorld) × ReadsWorld (W.left world.old) (W.left world.new) found)) }
    ensures write_fault { result ≡ Status.WriteFault → Rose (O.faults out.old) (O.faults out.new) }
    ensures disk_fault { result ≡ Status.DiskFault → Rose (D.faults disk.old) (D.faults disk.new) }

    // With good inputs and no fault all is done, or serials are used up, or memory is wanted.
    ensures complete { (bytes stream : List ℕ) → (found : GameWorld) → (list : List UploadOfStream)
        → AreRunBy most (map string_bytes words.now)
        → W.left world.old ≡ Some bytes → WorldForm bytes found
        → U.left uploads.old ≡ Some stream → length stream ≤ 2 ^ 28 → UploadList stream list
        → (disk_bytes : List ℕ) (entries : List TickRecord) → D.seen disk.old ≡ Some disk_bytes
        → Stood (D.seen disk.old) (listed found) entries
        → (Rose (W.faults world.old) (W.faults world.new) → ⊥)
        → (Rose (U.faults uploads.old) (U.faults uploads.new) → ⊥)
        → (Rose (O.faults out.old) (O.faults out.new) → ⊥)
        → (Rose (D.faults disk.old) (D.faults disk.new) → ⊥)
        → (result ≡ Status.Done) ⊎ (result ≡ Status.Memory)
        ⊎ ((index : ℕ) × (result ≡ Status.IdsExhausted index)) }

    // What is left on the disk and in the sink.
    ensures untouched { IsBeforeJournal result → (D.seen disk.new ≡ D.seen disk.old)
        × (O.written out.new ≡ O.written out.old) }
    ensures write_stopped { result ≡ Status.WriteFault → (first : Stored) × (stream : List UploadOfStream)
        × (steps : List Step)
        × AsksAtLeast most (map string_bytes words.now) (length steps)
        × ReadsWorld (W.left world.old) (W.left world.new) (world_of first) × IsSound first
        × ReadsUploads (U.left uploads.old) (U.left uploads.new) stream
        × LeavesPart (D.seen disk.old) (D.seen disk.new) (O.written out.old)
        (O.written out.new) stream first steps }
    ensures disk_stopped { result ≡ Status.DiskFault → (O.written out.new ≡ O.written out.old)
        ⊎ ((first : Stored) × (stream : List UploadOfStream) × (steps : List Step)
        × AsksAtLeast most (map string_bytes words.now) (length steps)
        × ReadsWorld (W.left world.old) (W.left world.new) (world_of first) × IsSound first
        × ReadsUploads (U.left uploads.old) (U.left uploads.new) stream
        × Prints (D.seen disk.old) (O.written out.old) (O.written out.new) stream first steps) }
    ensures memory_stopped { result ≡ Status.Memory
        → (IsKept (D.seen disk.old) (D.seen disk.new) × (O.written out.new ≡ O.written out.old))
        ⊎ ((first : Stored) × (stream : List UploadOfStream) × (steps : List Step)
        × AsksAtLeast most (map string_bytes words.now) (length steps)
        × ReadsWorld (W.left world.old) (W.left world.new) (world_of first) × IsSound first
        × ReadsUploads (U.left uploads.old) (U.left uploads.new) stream
        × Leaves (D.seen disk.old) (D.seen disk.new) (O.written out.old)
        (O.written out.new) stream first steps) }

    // What a crash at any moment leaves.
    ensures outlives { (bytes : List ℕ) → Rests bytes (D.seen disk.old) (D.moments disk.old)
        → ((D.moments disk.new ≡ D.moments disk.old) × (D.seen disk.new ≡ D.seen disk.old)
        × (O.written out.new ≡ O.written out.old))
        ⊎ ((first : Stored) × (stream : List UploadOfStream) × (ticks : ℕ)
        × Asks most (map string_bytes words.now) ticks
        × ReadsWorld (W.left world.old) (W.left world.new) (world_of first) × IsSound first
        × ReadsUploads (U.left uploads.old) (U.left uploads.new) stream
        × ((base : Stored) (entries : List TickRecord) → StoodAs first bytes base entries
        → Outlasts (O.written out.old) (O.written out.new) stream bytes base entries ticks
        (D.moments disk.old) (D.moments disk.new))) }
    ensures read_too { IsLeftNow (D.seen disk.new) (D.moments disk.new) }
    ensures rests { result ≢ Status.DiskFault → IsQuiet (D.seen disk.new) (D.moments disk.new) }

    // What is not needed is not read.
    ensures unread { result ≡ Status.Usage → (W.left world.new ≡ W.left world.old)
        × (U.left uploads.new ≡ U.left uploads.old) }
    ensures uploads_unread { (fault : WorldFault) → result ≡ Status.World fault
        → U.left uploads.new ≡ U.left uploads.old }

    // No failure is passed over: a count stays but where its fault is answered.
    ensures read_steady { result ≢ Status.ReadFault → (W.faults world.new ≡ W.faults world.old)
        × (U.faults uploads.new ≡ U.faults uploads.old) }
    ensures write_steady { result ≢ Status.WriteFault → O.faults out.new ≡ O.faults out.old }
    ensures disk_steady { result ≢ Status.DiskFault → D.faults disk.new ≡ D.faults disk.old }

    // The counts never fall.
    ensures world_later { W.faults world.old ≤ W.faults world.new }
    ensures uploads_later { U.faults uploads.old ≤ U.faults uploads.new }
    ensures out_later { O.faults out.old ≤ O.faults out.new }
    ensures disk_later { D.faults disk.old ≤ D.faults disk.new }
{
    let Inputs {
        ticks,
        world,
        stream,
    } = match read_inputs(alloc, most, words, world, uploads) {
        Ok(inputs) => inputs,
        Err(status) => return status,
    };
    match Uploads::read(&stream) {
        Ok(uploads) => keep_journal(alloc, runner, stepper, world, uploads, ticks, out, disk),
        Err(bad) => Status::Uploads(bad.place),
    }
}
