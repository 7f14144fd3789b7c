// Accounts behind their number, read from the front of bytes.
ghost use Rattle.std.specs.Prelude.{◌≡◌, ◌+◌, ◌↔◌, length, IsTrue, IfOk, IfErr, OnOk};
ghost use Rattle.byte_fields.specs.Front.{Begins, BeginsNone};
ghost use Rattle.object_store.specs.Stored.{AreRising, IsLast};
ghost use Rattle.world_bytes.specs.Forms.{HasAccountForm, account_bytes};
ghost use Rattle.world_bytes.specs.inner.Rows.{Leads, LeadsNone};
ghost use Rattle.tick_journal.specs.Accounts.{SpellsAccounts};
ghost use Rattle.tick_journal.specs.inner.Rows.{AreListed, list_row};

use byte_fields::Cursor;
use object_store::Account;
use std::alloc::Global;
use world_bytes::{BytesFault, read_account};

// Whether the player comes after those of all accounts.
fn is_behind(player: u32, accounts: &[Account]) -> bool
    requires { AreRising accounts.now }
    ensures { IsTrue result ↔ IsLast player accounts.now }
{
    match accounts.last() {
        Some(last) => last.player < player,
        None => true,
    }
}

// Reads so many accounts, and takes memory as they are read.
fn accounts_ahead(alloc: Global, count: u32, from: &mut Cursor) -> Result<Vec<Account>, BytesFault>
    ensures found { IfOk result (λ accounts. Leads (AreListed AreRising HasAccountForm count)
        (list_row account_bytes) from.old.0 accounts.items from.new.0) }
    ensures malformed { IfErr result (λ e. e ≡ BytesFault.Malformed
        → LeadsNone (AreListed AreRising HasAccountForm count) (list_row account_bytes) from.old.0) }
    ensures place { OnOk result (from.new.1 + length from.new.0 ≡ from.old.1 + length from.old.0) }
{
    let mut accounts = Vec::new(alloc);
    'each: for _ in 0..count {
        let account = read_account(alloc, from)?;
        if !is_behind(account.player, &accounts) {
            return Err(BytesFault::Malformed);
        }
        accounts.push(account)?;
    }
    Ok(accounts)
}

/// Reads the accounts at the front, behind their number. Memory is taken as they are read, whatever
/// number of them is promised. Where there are none, the cursor may stand anywhere.
pub(crate) fn read_accounts(alloc: Global, from: &mut Cursor) -> Result<Vec<Account>, BytesFault>
    ensures found { IfOk result (λ accounts. Begins SpellsAccounts from.old.0 accounts.items from.new.0) }
    ensures malformed { IfErr result (λ e. e ≡ BytesFault.Malformed → BeginsNone SpellsAccounts from.old.0) }
    ensures place { OnOk result (from.new.1 + length from.new.0 ≡ from.old.1 + length from.old.0) }
{
    let count = from.u32()?;
    accounts_ahead(alloc, count, from)
}
