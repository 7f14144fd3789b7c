// The tests of a record but for the rules of the world after it.
ghost use Rattle.std.specs.Prelude.{◌≡◌, ◌≢◌, ◌+◌, ◌<◌, ◌↔◌, IsTrue, ℕ, IfOk, OnOk, MatchBool, length};
ghost use Rattle.std.specs.List.{AllByRecursion};
ghost use Rattle.object_store.specs.Stored.{HasAccount};
ghost use Rattle.player_run.specs.Admission.{IsAccepted};
ghost use Rattle.record_follows.specs.Follows.{Fits, IsAdmitted};

use crate::NoMemory;
use intent_book::Refusal;
use object_store::{Account, RoomTable, World};
use player_run::admit;
use std::alloc::Global;
use tick_journal::{RunEntry, TickRecord, UploadEntry};

/// Whether the record follows the world but for the rules of the world after it, which are not tested.
pub fn fits(alloc: Global, before: &World, entry: &TickRecord) -> Result<bool, NoMemory>
    ensures { IfOk result (λ yes. MatchBool yes (Fits before.now entry.now)
        (Fits before.now entry.now → ⊥)) }
{
    if is_next(before, entry.tick)
        && are_rooms(before, entry.rooms.as_slice())
        && are_runs(before, entry.runs.as_slice())
        && are_accounts(before, entry.accounts.as_slice())
    {
        return are_admitted(alloc, before, entry.uploads.as_slice());
    }
    Ok(false)
}

// Whether the tick is the one after the world's.
fn is_next(before: &World, tick: u64) -> bool
    ensures { IsTrue result ↔ (tick ≡ before.now.tick + 1) }
{
    tick > 0 && tick - 1 == before.tick()
}

// Whether the tables are of rooms of the world.
fn are_rooms(before: &World, tables: &[RoomTable]) -> bool
    ensures { MatchBool result (AllByRecursion (λ table. table.index < length before.now.rooms) tables.now)
        (AllByRecursion (λ table. table.index < length before.now.rooms) tables.now → ⊥) }
{
    for table in tables {
        if table.index() >= before.rooms() {
            return false;
        }
    }
    true
}

// Whether the runs are of players of the world.
fn are_runs(before: &World, runs: &[RunEntry]) -> bool
    ensures { MatchBool result (AllByRecursion (λ run. HasAccount run.player before.now.accounts) runs.now)
        (AllByRecursion (λ run. HasAccount run.player before.now.accounts) runs.now → ⊥) }
{
    for run in runs {
        if !has_account(before, run.player) {
            return false;
        }
    }
    true
}

// Whether the accounts are of players of the world.
fn are_accounts(before: &World, accounts: &[Account]) -> bool
    ensures { MatchBool result
        (AllByRecursion (λ account. HasAccount account.player before.now.accounts) accounts.now)
        (AllByRecursion (λ account. HasAccount account.player before.now.accounts) accounts.now → ⊥) }
{
    for account in accounts {
        if !has_account(before, account.player) {
            return false;
        }
    }
    true
}

// Whether the player has an account.
fn has_account(before: &World, player: u32) -> bool
    ensures { MatchBool result (HasAccount player before.now.accounts)
        (HasAccount player before.now.accounts → ⊥) }
{
    before.account(player).is_some()
}

// Whether the accepted uploads are rightly so.
fn are_admitted(alloc: Global, before: &World, uploads: &[UploadEntry]) -> Result<bool, NoMemory>
    ensures { IfOk result (λ yes. MatchBool yes (AllByRecursion (IsAdmitted before.now) uploads.now)
        (AllByRecursion (IsAdmitted before.now) uploads.now → ⊥)) }
{
    for upload in uploads {
        if !is_admitted(alloc, before, upload)? {
            return Ok(false);
        }
    }
    Ok(true)
}

// Whether the upload, if it is accepted, is rightly so.
fn is_admitted(alloc: Global, before: &World, upload: &UploadEntry) -> Result<bool, NoMemory>
    ensures { IfOk result (λ yes. MatchBool yes (IsAdmitted before.now upload.now)
        (IsAdmitted before.now upload.now → ⊥)) }
{
    if upload.result_number != 0 {
        return Ok(true);
    }
    if !has_account(before, upload.player) {
        return Ok(false);
    }
    is_accepted(alloc, upload.bytes.as_slice())
}

// Whether the bytes are a module that a player may have.
fn is_accepted(alloc: Global, bytes: &[u8]) -> Result<bool, NoMemory>
    ensures { IfOk result (λ yes. MatchBool yes (IsAccepted bytes.now) (IsAccepted bytes.now → ⊥)) }
{
    match admit(alloc, bytes) {
        Ok(_linked) => Ok(true),
        Err(refusal) => {
            unless_memory(refusal)?;
            Ok(false)
        }
    }
}

// Whether it was not memory that wanted, which says nothing of the bytes.
fn unless_memory(refusal: Refusal) -> Result<(), NoMemory>
    ensures { OnOk result (refusal ≢ Refusal.Memory) }
{
    match refusal {
        Refusal::Memory => Err(NoMemory),
        _ => Ok(()),
    }
}
