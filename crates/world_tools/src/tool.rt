// Commands that keep nothing.
ghost use Rattle.std.specs.Prelude.{◌≡◌, ◌≢◌, ◌⊎◌, ℕ, ◌≤◌, List, map, string_bytes, Some, IfOk};
ghost use Rattle.std.specs.Io.KnownBytes.{Appends};
ghost use Rattle.object_store.specs.Stored.{Stored};
ghost use Rattle.record_follows.specs.Courses.{IsWorldAt};
ghost use Rattle.tick_journal.specs.declared.tick_record.TickRecord.{TickRecord};
ghost use Rattle.world_io.specs.Causes.{Rose};
ghost use Rattle.world_io.specs.Told.{AppendsPrefix};
ghost use Rattle.world_journal.specs.Journals.{IsJournal};
ghost use Rattle.world_tools.specs.Checks.{Checks, answer_line, ReadsAnswer, IsAnswer};
ghost use Rattle.world_tools.specs.Checks.{IsBeforeLine, IsOfCheck, IsOfReading};
ghost use Rattle.world_run.specs.Runs.{IsPastWords};
ghost use Rattle.world_run.specs.Demo.{EndsDemonstrating};
ghost use Rattle.world_tools.specs.Made.{EndsWriting, IsMade};
ghost use Rattle.world_tools.specs.Shown.{EndsShowing, IsOfTool};
ghost use Rattle.world_replay.specs.Replayed.{AllRuled, EndsReplaying};
ghost use Rattle.command_words.specs.Words.{AreCheck, AreDemo, AreGen, AreOfTool, AreReplay, AreShow};
ghost use Rattle.command_words.specs.Words.{AsksFor, IsDemo, IsGen};
ghost use Rattle.command_words.specs.declared.command.GenPart.{GenPart as Part};
ghost use Rattle.run_status.specs.declared.status.Status.{Status as StatusView};

use crate::made::make_part;
use crate::shown::show_tick;
use command_words::{Command, WordsFault, read_words};
use player_run::{Refusal, admit};
use run_status::Status;
use std::alloc::{AllocError, Global};
use upload_stream::most_module_bytes;
use world_io::{Disk, ReadStop, Sink, Source, read_all, write_all};
use world_replay::replay_journal;
use world_run::run_in_memory;

/// Runs a command that keeps nothing: `check MODULE`, `gen SEED ROOMS PART`, `demo SEED ROOMS TICKS`,
/// `show JOURNAL TICK` or `replay JOURNAL`.
///
/// For a check the module is read to its end, or to one byte past 1 MiB. What is printed is one line:
/// `accepted` where the bytes spell a valid module without floats, within the limits, that links to the host
/// calls, and else `refused` and why. For a gen nothing is read, and the part is written as it is. For a demo
/// nothing is read: both parts are made, and so many ticks are run on them in memory; the last line of the
/// run is written, and `journal` and the length of its journal. For a show the journal on the disk is read,
/// and the text of the tick's world is written, and a line feed. For a replay the journal on the disk is
/// read, each of its records is ruled again from the world before it, and one line says how many there are.
/// The disk is left as it is.
pub fn tool_main<S: Source, O: Sink, D: Disk>(
    alloc: Global,
    words: &[String],
    input: &mut S,
    out: &mut O,
    disk: &mut D,
) -> Status
    // With the words of a check each answer is the one that the bytes call for, and its line was printed.
    ensures checked { AreCheck (map string_bytes words.now) → IsAnswer result
        → ReadsAnswer (S.left input.old) (S.left input.new) result
        × Appends (O.written out.old) (O.written out.new) (answer_line result) }
    ensures check_only { AreCheck (map string_bytes words.now) → IsOfCheck result }
    ensures only { IsOfTool result }

    // With the words of a gen the part that they ask for was written.
    ensures made { (seed rooms : ℕ) (part : Part) → IsGen (map string_bytes words.now) seed rooms part
        → EndsWriting (IsMade seed rooms part) (O.written out.old) (O.written out.new) result }

    // With the words of a show the text of the tick that they ask for was written, or there is none.
    ensures shown { (tick : ℕ) → AsksFor (map string_bytes words.now) tick
        → EndsShowing tick (D.seen disk.old) (D.faults disk.old) (D.faults disk.new)
        (O.written out.old) (O.written out.new) result }

    // With the words of a replay all records of the journal are ruled, and their number was written, or not
    // all are.
    ensures replayed { AreReplay (map string_bytes words.now)
        → EndsReplaying (D.seen disk.old) (D.faults disk.old) (D.faults disk.new)
        (O.written out.old) (O.written out.new) result }

    // With the words of a demo the ticks that they ask for were made, and what is shown of them was written.
    ensures demonstrated { (seed rooms ticks : ℕ) → IsDemo (map string_bytes words.now) seed rooms ticks
        → EndsDemonstrating seed rooms ticks (O.written out.old) (O.written out.new) result }

    // The words are refused exactly where they are those of no such command.
    ensures usage { result ≡ Status.Usage → AreOfTool (map string_bytes words.now) → ⊥ }
    ensures words { IsPastWords result → AreOfTool (map string_bytes words.now) }

    // A fault comes only where that object's count rose.
    ensures read_fault { result ≡ Status.ReadFault → Rose (S.faults input.old) (S.faults input.new) }
    ensures write_fault { result ≡ Status.WriteFault → Rose (O.faults out.old) (O.faults out.new) }
    ensures disk_fault { result ≡ Status.DiskFault → Rose (D.faults disk.old) (D.faults disk.new) }

    // With the words of a check and no fault the bytes are answered, or memory is wanted.
    ensures complete { (bytes : List ℕ) → AreCheck (map string_bytes words.now)
        → S.left input.old ≡ Some bytes
        → (Rose (S.faults input.old) (S.faults input.new) → ⊥)
        → (Rose (O.faults out.old) (O.faults out.new) → ⊥)
        → (result ≡ Status.Memory) ⊎ Checks bytes result }

    // With the words of a gen and no fault all is done, or memory is wanted.
    ensures made_complete { AreGen (map string_bytes words.now)
        → (Rose (O.faults out.old) (O.faults out.new) → ⊥)
        → (result ≡ Status.Memory) ⊎ (result ≡ Status.Done) }

    // With the words of a demo and no fault all is done, or serials are used up, or memory is wanted.
    ensures demonstrated_complete { AreDemo (map string_bytes words.now)
        → (Rose (O.faults out.old) (O.faults out.new) → ⊥)
        → (result ≡ Status.Memory) ⊎ (result ≡ Status.Done)
        ⊎ ((index : ℕ) × (result ≡ Status.IdsExhausted index)) }

    // With the words of a show, a journal that has the tick, and no fault, all is done, or memory is wanted.
    ensures shown_complete { (tick : ℕ) (bytes : List ℕ) (base world : Stored) (entries : List TickRecord)
        → AsksFor (map string_bytes words.now) tick
        → D.seen disk.old ≡ Some bytes → IsJournal base entries bytes → IsWorldAt base entries tick world
        → (Rose (D.faults disk.old) (D.faults disk.new) → ⊥)
        → (Rose (O.faults out.old) (O.faults out.new) → ⊥)
        → (result ≡ Status.Memory) ⊎ (result ≡ Status.Done) }

    // With the words of a replay, a journal whose records all are ruled, and no fault, all is done, or memory
    // is wanted.
    ensures replayed_complete { (bytes : List ℕ) (base : Stored) (entries : List TickRecord)
        → AreReplay (map string_bytes words.now)
        → D.seen disk.old ≡ Some bytes → IsJournal base entries bytes → AllRuled base entries
        → (Rose (D.faults disk.old) (D.faults disk.new) → ⊥)
        → (Rose (O.faults out.old) (O.faults out.new) → ⊥)
        → (result ≡ Status.Memory) ⊎ (result ≡ Status.Done) }

    // What is left in the sink and on the disk.
    ensures untouched { IsBeforeLine result → O.written out.new ≡ O.written out.old }
    ensures write_stopped { AreCheck (map string_bytes words.now) → result ≡ Status.WriteFault
        → (answer : StatusView) × IsAnswer answer
        × ReadsAnswer (S.left input.old) (S.left input.new) answer
        × AppendsPrefix (O.written out.old) (O.written out.new) (answer_line answer) }
    ensures disk { (D.seen disk.new ≡ D.seen disk.old) × (D.moments disk.new ≡ D.moments disk.old) }
    ensures disk_unused { (AreShow (map string_bytes words.now) → ⊥)
        → (AreReplay (map string_bytes words.now) → ⊥)
        → D.faults disk.new ≡ D.faults disk.old }

    // Only words of a check read the source.
    ensures unread { (AreCheck (map string_bytes words.now) → ⊥)
        → (S.left input.new ≡ S.left input.old) × (S.faults input.new ≡ S.faults input.old) }

    // No failure is passed over: a count stays but where its fault is answered.
    ensures read_steady { result ≢ Status.ReadFault → S.faults input.new ≡ S.faults input.old }
    ensures write_steady { result ≢ Status.WriteFault → O.faults out.new ≡ O.faults out.old }
    ensures disk_steady { result ≢ Status.DiskFault → D.faults disk.new ≡ D.faults disk.old }

    // The counts never fall.
    ensures input_later { S.faults input.old ≤ S.faults input.new }
    ensures out_later { O.faults out.old ≤ O.faults out.new }
    ensures disk_later { D.faults disk.old ≤ D.faults disk.new }
{
    match read_words(alloc, words) {
        Ok(Command::Check { .. }) => check_module(alloc, input, out),
        Ok(Command::Show { tick, .. }) => show_tick(alloc, tick, out, disk),
        Ok(Command::Replay { .. }) => replay_journal(alloc, out, disk),
        Ok(Command::Gen { seed, rooms, part }) => make_part(alloc, seed, rooms, part, out),
        Ok(Command::Demo { seed, rooms, ticks }) => run_in_memory(alloc, seed, rooms, ticks, out),
        Ok(Command::Run { .. }) => Status::Usage,
        Ok(Command::Serve { .. }) => Status::Usage,
        Err(WordsFault::Usage) => Status::Usage,
        Err(WordsFault::Memory) => Status::Memory,
    }
}

// Reads a module, and prints the line of its answer.
fn check_module<S: Source, O: Sink>(alloc: Global, input: &mut S, out: &mut O) -> Status
    ensures checked { IsAnswer result → ReadsAnswer (S.left input.old) (S.left input.new) result
        × Appends (O.written out.old) (O.written out.new) (answer_line result) }
    ensures only { IsOfCheck result }
    ensures words { result ≢ Status.Usage }
    ensures read_fault { result ≡ Status.ReadFault → Rose (S.faults input.old) (S.faults input.new) }
    ensures write_fault { result ≡ Status.WriteFault → Rose (O.faults out.old) (O.faults out.new) }
    ensures complete { (bytes : List ℕ) → S.left input.old ≡ Some bytes
        → (Rose (S.faults input.old) (S.faults input.new) → ⊥)
        → (Rose (O.faults out.old) (O.faults out.new) → ⊥)
        → (result ≡ Status.Memory) ⊎ Checks bytes result }
    ensures untouched { IsBeforeLine result → O.written out.new ≡ O.written out.old }
    ensures write_stopped { result ≡ Status.WriteFault → (answer : StatusView) × IsAnswer answer
        × ReadsAnswer (S.left input.old) (S.left input.new) answer
        × AppendsPrefix (O.written out.old) (O.written out.new) (answer_line answer) }
    ensures read_steady { result ≢ Status.ReadFault → S.faults input.new ≡ S.faults input.old }
    ensures write_steady { result ≢ Status.WriteFault → O.faults out.new ≡ O.faults out.old }
    ensures input_later { S.faults input.old ≤ S.faults input.new }
    ensures out_later { O.faults out.old ≤ O.faults out.new }
{
    match answer(alloc, input) {
        answer @ (Status::Done | Status::Refused(_)) => match line_of(alloc, answer) {
            Ok(line) => print(out, &line, answer),
            Err(_) => Status::Memory,
        },
        status => status,
    }
}

// Reads a module, and answers what its bytes call for.
fn answer<S: Source>(alloc: Global, input: &mut S) -> Status
    ensures only { IsOfReading result }
    ensures read { IsAnswer result → ReadsAnswer (S.left input.old) (S.left input.new) result }
    ensures fault { result ≡ Status.ReadFault → Rose (S.faults input.old) (S.faults input.new) }
    ensures complete { (bytes : List ℕ) → S.left input.old ≡ Some bytes
        → (Rose (S.faults input.old) (S.faults input.new) → ⊥)
        → (result ≡ Status.Memory) ⊎ Checks bytes result }
    ensures steady { result ≢ Status.ReadFault → S.faults input.new ≡ S.faults input.old }
    ensures later { S.faults input.old ≤ S.faults input.new }
{
    match read_all(alloc, input, u64::from(most_module_bytes())) {
        Ok(bytes) => verdict(alloc, &bytes),
        Err(ReadStop::Fault) => Status::ReadFault,
        Err(ReadStop::TooLong) => Status::Refused(Refusal::TooLarge),
        Err(ReadStop::Memory) => Status::Memory,
    }
}

// What these bytes call for.
fn verdict(alloc: Global, bytes: &[u8]) -> Status
    ensures { (result ≡ Status.Memory) ⊎ Checks bytes.now result }
{
    match admit(alloc, bytes) {
        Ok(_) => Status::Done,
        Err(Refusal::Memory) => Status::Memory,
        Err(refusal) => Status::Refused(refusal),
    }
}

// Prints the line of an answer.
fn print<O: Sink>(out: &mut O, line: &str, answer: Status) -> Status
    requires answer { IsAnswer answer }
    requires line { line.now ≡ answer_line answer }
    ensures only { (result ≡ answer) ⊎ (result ≡ Status.WriteFault) }
    ensures line { IsAnswer result → Appends (O.written out.old) (O.written out.new) (answer_line answer) }
    ensures line_cut { result ≡ Status.WriteFault
        → AppendsPrefix (O.written out.old) (O.written out.new) (answer_line answer) }
    ensures fault { result ≡ Status.WriteFault → Rose (O.faults out.old) (O.faults out.new) }
    ensures steady { result ≢ Status.WriteFault → O.faults out.new ≡ O.faults out.old }
    ensures later { O.faults out.old ≤ O.faults out.new }
{
    match write_all(out, line.as_bytes()) {
        Ok(()) => answer,
        Err(_) => Status::WriteFault,
    }
}

// The line of an answer, with its line feed.
fn line_of(alloc: Global, answer: Status) -> Result<String, AllocError>
    ensures { IfOk result (λ line. string_bytes line ≡ answer_line answer) }
{
    match answer {
        Status::Done => String::from_str(alloc, "accepted\n"),
        Status::Refused(refusal) => {
            let name = refusal.name();
            format!(in alloc; "refused {name}\n")
        }
        _ => Ok(String::new(alloc)),
    }
}
