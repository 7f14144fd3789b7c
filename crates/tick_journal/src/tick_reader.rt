// The content of a tick's frame, read.
ghost use Rattle.std.specs.Prelude.{◌≡◌, ℕ, List, ◌∷◌, IfOk, IfErr, OnOk};
ghost use Rattle.world_bytes.specs.inner.Rows.{Leads, LeadsNone};
ghost use Rattle.tick_journal.specs.Contents.{tick_content};
ghost use Rattle.tick_journal.specs.TickForms.{SpellsTick};
ghost use Rattle.tick_journal.specs.declared.tick_record.TickRecord.{TickRecord as Recorded};
ghost use Rattle.tick_journal.specs.inner.Reading.{IsReadTick, before};

use crate::accounts::read_accounts;
use crate::entry_reader::{read_runs, read_tables, read_uploads};
use crate::tick_record::{Entries, TickRecord};
use byte_fields::Cursor;
use std::alloc::Global;
use world_bytes::BytesFault;

// Reads the byte T.
fn read_tag(from: &mut Cursor) -> Result<(), BytesFault>
    ensures found { OnOk result (from.old.0 ≡ 0x54 ∷ from.new.0) }
    ensures malformed { IfErr result (λ e. e ≡ BytesFault.Malformed → (rest : List ℕ)
        → from.old.0 ≡ 0x54 ∷ rest → ⊥) }
{
    if from.u8()? != b'T' {
        return Err(BytesFault::Malformed);
    }
    Ok(())
}

// Reads what is recorded of a tick. Where there is nothing, the cursor may stand anywhere.
fn read_record(alloc: Global, from: &mut Cursor) -> Result<TickRecord, BytesFault>
    ensures found { IfOk result
        (λ entry. Leads IsReadTick (before tick_content) from.old.0 entry from.new.0) }
    ensures malformed { IfErr result (λ e. e ≡ BytesFault.Malformed
        → LeadsNone IsReadTick (before tick_content) from.old.0) }
{
    read_tag(from)?;
    let tick = from.u64()?;
    let uploads = read_uploads(alloc, from)?;
    let runs = read_runs(alloc, from)?;
    let accounts = read_accounts(alloc, from)?;
    let rooms = read_tables(alloc, from)?;
    Ok(TickRecord {
        tick,
        uploads: Entries::from_vec(uploads),
        runs: Entries::from_vec(runs),
        accounts: Entries::from_vec(accounts),
        rooms: Entries::from_vec(rooms),
    })
}

/// Reads what a tick's frame holds. Memory is taken as entries are read, whatever number of them is
/// promised, and the time is linear in the content.
pub fn read_tick(alloc: Global, content: &[u8]) -> Result<TickRecord, BytesFault>
    ensures found { IfOk result (λ entry. SpellsTick content.now entry) }
    ensures malformed { IfErr result (λ e. e ≡ BytesFault.Malformed
        → (entry : Recorded) → SpellsTick content.now entry → ⊥) }
{
    let mut from = Cursor::over(content);
    let entry = read_record(alloc, &mut from)?;
    if from.left() > 0 {
        return Err(BytesFault::Malformed);
    }
    Ok(entry)
}
