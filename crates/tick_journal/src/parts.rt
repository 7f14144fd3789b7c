// Uploads, runs, accounts and rooms of a tick, written to the end of bytes.
ghost use Rattle.std.specs.Prelude.{◌≡◌, ◌++◌, OnOk};
ghost use Rattle.tick_journal.specs.Contents.{outcome_bytes, run_bytes, upload_bytes};
ghost use Rattle.tick_journal.specs.Numbers.{RunFits, UploadFits};
ghost use Rattle.tick_journal.specs.inner.Lists.{listed, ListFits};
ghost use Rattle.world_bytes.specs.Forms.{account_bytes, intent_bytes, room_bytes};
ghost use Rattle.world_bytes.specs.Numbers.{AccountFits, IntentFits, TableFits};

use crate::NoMemory;
use crate::entries::{RunEntry, UploadEntry};
use byte_fields::{put_u32, put_u64};
use intent_book::{Intent, RunOutcome};
use object_store::{Account, RoomTable};
use world_bytes::{put_length, write_account, write_intent, write_room};

// Writes an upload, with its bytes behind their number.
fn put_upload(entry: &UploadEntry, out: &mut Vec<u8>) -> Result<(), NoMemory>
    ensures written { OnOk result (out.new.items ≡ out.old.items ++ upload_bytes entry.now) }
    ensures fits { OnOk result (UploadFits entry.now) }
{
    put_u32(out, entry.player)?;
    out.push(entry.result_number)?;
    put_length(entry.bytes.len(), out)?;
    out.extend_from_slice(entry.bytes.as_slice())
}

/// Writes uploads behind their number.
pub(crate) fn put_uploads(uploads: &[UploadEntry], out: &mut Vec<u8>) -> Result<(), NoMemory>
    ensures written { OnOk result (out.new.items ≡ out.old.items ++ listed upload_bytes uploads.now) }
    ensures fits { OnOk result (ListFits UploadFits uploads.now) }
{
    put_length(uploads.len() as u64, out)?;
    'each: for entry in uploads {
        put_upload(entry, out)?;
    }
    Ok(())
}

// How a run ended, and the number of its trap or 0.
fn outcome_numbers(outcome: RunOutcome) -> [u8; 2]
    ensures { result ≡ outcome_bytes outcome }
{
    match outcome {
        RunOutcome::Finished => [0, 0],
        RunOutcome::Trapped(trap) => [1, trap],
        RunOutcome::Spent => [2, 0],
    }
}

// Writes intents behind their number.
fn put_intents(intents: &[Intent], out: &mut Vec<u8>) -> Result<(), NoMemory>
    ensures written { OnOk result (out.new.items ≡ out.old.items ++ listed intent_bytes intents.now) }
    ensures fits { OnOk result (ListFits IntentFits intents.now) }
{
    put_length(intents.len() as u64, out)?;
    'each: for intent in intents {
        write_intent(intent, out)?;
    }
    Ok(())
}

// Writes a run.
fn put_run(
    player: u32,
    outcome: RunOutcome,
    used: u64,
    intents: &[Intent],
    out: &mut Vec<u8>,
) -> Result<(), NoMemory>
    ensures written { OnOk result (out.new.items ≡ out.old.items ++ run_bytes
        (record { player = player; outcome = outcome; used = used; intents = intents.now })) }
    ensures fits { OnOk result (RunFits
        (record { player = player; outcome = outcome; used = used; intents = intents.now })) }
{
    put_u32(out, player)?;
    out.extend_from_slice(&outcome_numbers(outcome))?;
    put_u64(out, used)?;
    put_intents(intents, out)
}

/// Writes runs behind their number.
pub(crate) fn put_runs(runs: &[RunEntry], out: &mut Vec<u8>) -> Result<(), NoMemory>
    ensures written { OnOk result (out.new.items ≡ out.old.items ++ listed run_bytes runs.now) }
    ensures fits { OnOk result (ListFits RunFits runs.now) }
{
    put_length(runs.len() as u64, out)?;
    'each: for run in runs {
        put_run(
            run.player,
            run.outcome,
            run.used,
            run.intents.as_slice(),
            out,
        )?;
    }
    Ok(())
}

/// Writes accounts behind their number.
pub(crate) fn put_accounts(accounts: &[Account], out: &mut Vec<u8>) -> Result<(), NoMemory>
    ensures written { OnOk result (out.new.items ≡ out.old.items ++ listed account_bytes accounts.now) }
    ensures fits { OnOk result (ListFits AccountFits accounts.now) }
{
    put_length(accounts.len() as u64, out)?;
    'each: for account in accounts {
        write_account(account, out)?;
    }
    Ok(())
}

/// Writes tables of rooms behind their number.
pub(crate) fn put_tables(tables: &[RoomTable], out: &mut Vec<u8>) -> Result<(), NoMemory>
    ensures written { OnOk result (out.new.items ≡ out.old.items ++ listed room_bytes tables.now) }
    ensures fits { OnOk result (ListFits TableFits tables.now) }
{
    put_length(tables.len() as u64, out)?;
    'each: for table in tables {
        write_room(table.index(), table, out)?;
    }
    Ok(())
}
