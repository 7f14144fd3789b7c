// Uploads, runs and tables of a tick, read from the front of bytes. Where none are there, the cursor
// may stand anywhere.
ghost use Rattle.std.specs.Prelude.{◌≡◌, ◌≤◌, ◌<◌, ◌^◌, [], ◌∷◌, ◌↔◌, ℕ, List, IsTrue, IfOk, IfErr, IfSome};
ghost use Rattle.std.specs.Prelude.{IfNone};
ghost use Rattle.std.specs.List.{AllByRecursion};
ghost use Rattle.intent_book.specs.declared.player_run.RunOutcome.{RunOutcome as Outcome};
ghost use Rattle.world_bytes.specs.Forms.{intent_bytes, room_bytes};
ghost use Rattle.world_bytes.specs.inner.Rows.{Leads, LeadsNone};
ghost use Rattle.tick_journal.specs.Contents.{outcome_bytes, run_bytes, upload_bytes};
ghost use Rattle.tick_journal.specs.TickForms.{AreCanonicalOf, HasRunForm, HasUploadForm, IsLasting};
ghost use Rattle.tick_journal.specs.TickForms.{IsOutcome, IsRisingBy};
ghost use Rattle.tick_journal.specs.inner.Lists.{listed};
ghost use Rattle.tick_journal.specs.inner.Reading.{AreReadTables, HasModuleForm, HasRunsForm, HasUploadsForm};
ghost use Rattle.tick_journal.specs.inner.Reading.{before, module_bytes, rank};

use crate::NoMemory;
use crate::entries::{RunEntry, UploadEntry};
use byte_fields::Cursor;
use intent_book::{Intent, Intents, RunOutcome, most_entries};
use object_store::{Bytes, RoomTable};
use std::alloc::Global;
use world_bytes::{BytesFault, read_intent, read_room};

// The most bytes of a module that are kept, 1 MiB.
const MOST_KEPT: u32 = 1_048_576;

// Whether an upload's result lasts. WrongToken, 2, is in no content, and nor is want of memory, 11.
fn is_lasting(number: u8) -> bool
    ensures { IsTrue result ↔ IsLasting number }
{
    number <= 10 && number != 2
}

// A copy of these bytes.
fn copy_of(alloc: Global, part: &[u8]) -> Result<Bytes, NoMemory>
    ensures same { IfOk result (λ text. text ≡ part.now) }
    ensures bytes { AllByRecursion (λ byte. byte < 2 ^ 8) part.now }
{
    Bytes::of(alloc, part)
}

// Reads a module's bytes behind their number.
fn read_module(alloc: Global, from: &mut Cursor) -> Result<Bytes, BytesFault>
    ensures found { IfOk result
        (λ text. Leads HasModuleForm (before module_bytes) from.old.0 text from.new.0) }
    ensures malformed { IfErr result (λ e. e ≡ BytesFault.Malformed
        → LeadsNone HasModuleForm (before module_bytes) from.old.0) }
{
    let length = from.u32()?;
    if length > MOST_KEPT {
        return Err(BytesFault::Malformed);
    }
    let part = from.take(length as usize)?;
    Ok(copy_of(alloc, part)?)
}

// Reads an upload.
fn read_upload(alloc: Global, from: &mut Cursor) -> Result<UploadEntry, BytesFault>
    ensures found { IfOk result
        (λ entry. Leads HasUploadForm (before upload_bytes) from.old.0 entry from.new.0) }
    ensures malformed { IfErr result (λ e. e ≡ BytesFault.Malformed
        → LeadsNone HasUploadForm (before upload_bytes) from.old.0) }
{
    let player = from.u32()?;
    let result_number = from.u8()?;
    if !is_lasting(result_number) {
        return Err(BytesFault::Malformed);
    }
    let bytes = read_module(alloc, from)?;
    Ok(UploadEntry {
        player,
        result_number,
        bytes,
    })
}

/// Reads uploads behind their number, and takes memory as they are read.
pub(crate) fn read_uploads(alloc: Global, from: &mut Cursor) -> Result<Vec<UploadEntry>, BytesFault>
    ensures found { IfOk result
        (λ list. Leads HasUploadsForm (before (listed upload_bytes)) from.old.0 list.items from.new.0) }
    ensures malformed { IfErr result (λ e. e ≡ BytesFault.Malformed
        → LeadsNone HasUploadsForm (before (listed upload_bytes)) from.old.0) }
{
    let count = from.u32()?;
    let mut list = Vec::new(alloc);
    'each: for _ in 0..count {
        let entry = read_upload(alloc, from)?;
        list.push(entry)?;
    }
    Ok(list)
}

// The outcome of these two numbers.
fn outcome_of(outcome: u8, trap: u8) -> Option<RunOutcome>
    ensures some { IfSome result (λ is. IsOutcome is × (outcome ∷ trap ∷ [] ≡ outcome_bytes is)) }
    ensures none { IfNone result ((is : Outcome) → IsOutcome is → outcome ∷ trap ∷ [] ≡ outcome_bytes is
        → ⊥) }
{
    match (outcome, trap) {
        (0, 0) => Some(RunOutcome::Finished),
        (1, 1..=9) => Some(RunOutcome::Trapped(trap)),
        (2, 0) => Some(RunOutcome::Spent),
        _ => None,
    }
}

// Reads how a run ended.
fn read_outcome(from: &mut Cursor) -> Result<RunOutcome, BytesFault>
    ensures found { IfOk result
        (λ outcome. Leads IsOutcome (before outcome_bytes) from.old.0 outcome from.new.0) }
    ensures malformed { IfErr result (λ e. e ≡ BytesFault.Malformed
        → LeadsNone IsOutcome (before outcome_bytes) from.old.0) }
{
    let outcome = from.u8()?;
    let trap = from.u8()?;
    match outcome_of(outcome, trap) {
        Some(is) => Ok(is),
        None => Err(BytesFault::Malformed),
    }
}

// Whether one intent comes before another, by its action and then by its actor.
fn comes_before(one: &Intent, other: &Intent) -> bool
    ensures { IsTrue result ↔ (rank one.now < rank other.now) }
{
    let first = (one.action.number(), one.actor);
    let second = (other.action.number(), other.actor);
    first.0 < second.0 || first.0 == second.0 && first.1 < second.1
}

// Whether the intent comes behind all of these.
fn is_intent_behind(intent: &Intent, intents: &[Intent]) -> bool
    requires { IsRisingBy rank intents.now }
    ensures { IsTrue result ↔ AllByRecursion (λ earlier. rank earlier < rank intent.now) intents.now }
{
    match intents.last() {
        Some(last) => comes_before(last, intent),
        None => true,
    }
}

// Reads a player's intents behind their number, and takes memory as they are read.
fn read_intents(alloc: Global, player: u32, from: &mut Cursor) -> Result<Intents, BytesFault>
    ensures found { IfOk result
        (λ list. Leads (AreCanonicalOf player) (before (listed intent_bytes)) from.old.0 list from.new.0) }
    ensures malformed { IfErr result (λ e. e ≡ BytesFault.Malformed
        → LeadsNone (AreCanonicalOf player) (before (listed intent_bytes)) from.old.0) }
{
    let count = from.u32()?;
    if count > most_entries() {
        return Err(BytesFault::Malformed);
    }
    let mut list = Intents::new(alloc);
    'each: for _ in 0..count {
        let intent = read_intent(player, from)?;
        if !is_intent_behind(&intent, list.as_slice()) {
            return Err(BytesFault::Malformed);
        }
        list.push(intent)?;
    }
    Ok(list)
}

// Reads a run.
fn read_run(alloc: Global, from: &mut Cursor) -> Result<RunEntry, BytesFault>
    ensures found { IfOk result (λ run. Leads HasRunForm (before run_bytes) from.old.0 run from.new.0) }
    ensures malformed { IfErr result (λ e. e ≡ BytesFault.Malformed
        → LeadsNone HasRunForm (before run_bytes) from.old.0) }
{
    let player = from.u32()?;
    let outcome = read_outcome(from)?;
    let used = from.u64()?;
    let intents = read_intents(alloc, player, from)?;
    Ok(RunEntry {
        player,
        outcome,
        used,
        intents,
    })
}

// Whether the player comes behind those of all runs.
fn is_player_behind(player: u32, runs: &[RunEntry]) -> bool
    requires { IsRisingBy (λ run. run.player) runs.now }
    ensures { IsTrue result ↔ AllByRecursion (λ earlier. earlier.player < player) runs.now }
{
    match runs.last() {
        Some(last) => last.player < player,
        None => true,
    }
}

/// Reads runs behind their number, and takes memory as they are read.
pub(crate) fn read_runs(alloc: Global, from: &mut Cursor) -> Result<Vec<RunEntry>, BytesFault>
    ensures found { IfOk result
        (λ list. Leads HasRunsForm (before (listed run_bytes)) from.old.0 list.items from.new.0) }
    ensures malformed { IfErr result (λ e. e ≡ BytesFault.Malformed
        → LeadsNone HasRunsForm (before (listed run_bytes)) from.old.0) }
{
    let count = from.u32()?;
    let mut list = Vec::new(alloc);
    'each: for _ in 0..count {
        let entry = read_run(alloc, from)?;
        if !is_player_behind(entry.player, &list) {
            return Err(BytesFault::Malformed);
        }
        list.push(entry)?;
    }
    Ok(list)
}

// Whether the index comes behind those of all tables.
fn is_index_behind(index: u32, tables: &[RoomTable]) -> bool
    requires { IsRisingBy (λ table. table.index) tables.now }
    ensures { IsTrue result ↔ AllByRecursion (λ earlier. earlier.index < index) tables.now }
{
    match tables.last() {
        Some(last) => last.index() < index,
        None => true,
    }
}

/// Reads tables of rooms behind their number, and takes memory as they are read.
pub(crate) fn read_tables(alloc: Global, from: &mut Cursor) -> Result<Vec<RoomTable>, BytesFault>
    ensures found { IfOk result
        (λ list. Leads AreReadTables (before (listed room_bytes)) from.old.0 list.items from.new.0) }
    ensures malformed { IfErr result (λ e. e ≡ BytesFault.Malformed
        → LeadsNone AreReadTables (before (listed room_bytes)) from.old.0) }
{
    let count = from.u32()?;
    let mut list = Vec::new(alloc);
    'each: for _ in 0..count {
        let (index, table) = read_room(alloc, from)?;
        if !is_index_behind(index, &list) {
            return Err(BytesFault::Malformed);
        }
        list.push(table)?;
    }
    Ok(list)
}
