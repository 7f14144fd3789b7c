// The record of a tick.
ghost use Rattle.std.specs.Prelude.{◌≡◌, length, map, IfOk};
ghost use Rattle.tick_journal.specs.Contents.{run_entry};
ghost use Rattle.recorded_tick.specs.Recording.{IsRecordOf};

use crate::NoMemory;
use crate::changes::{changed_accounts, changed_rooms};
use intent_book::PlayerRun;
use object_store::World;
use std::alloc::Global;
use tick_journal::{Entries, RunEntry, TickRecord, UploadEntry};

// What is recorded of a run: all but its memory text.
fn entry_of(run: PlayerRun) -> RunEntry
    ensures { result ≡ run_entry run }
{
    let PlayerRun {
        player,
        outcome,
        used,
        intents,
        memory: _,
    } = run;
    RunEntry {
        player,
        outcome,
        used,
        intents,
    }
}

// What is recorded of runs.
fn run_entries(alloc: Global, runs: Vec<PlayerRun>) -> Result<Vec<RunEntry>, NoMemory>
    ensures { IfOk result (λ entries. entries.items ≡ map run_entry runs.items) }
{
    let mut entries = Vec::with_capacity(alloc, runs.len())?;
    for run in runs {
        entries.push(entry_of(run))?;
    }
    Ok(entries)
}

/// The record of a tick between two worlds of the same rooms and accounts. It copies the accounts and the
/// tables that changed, and takes the uploads and the runs, but for the memory texts, which stand in the
/// accounts.
pub fn record_tick(
    alloc: Global,
    before: &World,
    after: &World,
    uploads: Vec<UploadEntry>,
    runs: Vec<PlayerRun>,
) -> Result<TickRecord, NoMemory>
    requires rooms { length before.now.rooms ≡ length after.now.rooms }
    requires accounts { length before.now.accounts ≡ length after.now.accounts }
    ensures { IfOk result (λ entry. IsRecordOf before.now after.now uploads.items runs.items entry) }
{
    let runs = run_entries(alloc, runs)?;
    let accounts = changed_accounts(alloc, before.account_list(), after.account_list())?;
    let rooms = changed_rooms(alloc, before.room_list(), after.room_list())?;
    Ok(TickRecord {
        tick: after.tick(),
        uploads: Entries::from_vec(uploads),
        runs: Entries::from_vec(runs),
        accounts: Entries::from_vec(accounts),
        rooms: Entries::from_vec(rooms),
    })
}
