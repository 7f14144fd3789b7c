// The modules and the counts of uploads, as records are read.
ghost use Rattle.std.specs.Prelude.{◌≡◌, ℕ, [], ◌∷◌, ◌++◌, List, map, IfOk, OnOk};
ghost use Rattle.object_store.specs.Stored.{AreRising};
ghost use Rattle.object_store.specs.declared.account.Account.{Account as Known};
ghost use Rattle.room_table.specs.inner.Ordered.{Rises};
ghost use Rattle.tick_journal.specs.declared.entries.UploadEntry.{UploadEntry as Judged};
ghost use Rattle.world_journal.specs.inner.Counting.{counted, count_for};

use crate::NoMemory;
use crate::recovered::{Modules, UploadCount};
use object_store::Account;
use std::alloc::Global;
use tick_journal::{UploadEntry, Uploads};

// The result of a player who has no upload.
const NO_RESULT: u8 = 255;

/// The modules of players, and the counts of their uploads.
#[derive(Drop)]
pub(crate) struct Uploaded {
    pub modules: Modules,
    pub counts: Vec<UploadCount>,
}

// A count of no uploads for each account.
fn no_uploads(alloc: Global, accounts: &[Account]) -> Result<Vec<UploadCount>, NoMemory>
    ensures { IfOk result
        (λ counts. counts.items ≡ map (λ account. count_for account.player []) accounts.now) }
{
    accounts
        .iter()
        .map(|account| UploadCount {
            player: account.player,
            uploads: 0,
            last: NO_RESULT,
        })
        .collect(alloc)
}

// Counts an upload, where the player has a count.
fn count_upload(counts: &mut [UploadCount], player: u32, result_number: u8)
    requires { Rises (λ count. count.player) counts.old }
    ensures { counts.new ≡ map (counted player result_number) counts.old }
{
    let place = counts.partition_point(|count| count.player < player);
    if place < counts.len() && counts[place].player == player {
        counts[place] = UploadCount {
            player,
            uploads: counts[place].uploads.saturating_add(1),
            last: result_number,
        };
    }
}

impl Uploaded {
    ghost use Rattle.world_journal.specs.inner.Uploads.{HasUploaded};

    /// What stands before all uploads.
    pub(crate) fn none(alloc: Global, accounts: &[Account]) -> Result<Uploaded, NoMemory>
        requires { AreRising accounts.now }
        ensures none { IfOk result (HasUploaded accounts.now []) }
        ensures rising { IfOk result (λ uploaded. Rises (λ count. count.player) uploaded.counts.items) }
    {
        Ok(Uploaded {
            modules: Modules::new(alloc),
            counts: no_uploads(alloc, accounts)?,
        })
    }

    // Adds an upload.
    fn add(&mut self, upload: UploadEntry) -> Result<(), NoMemory>
        requires { Rises (λ count. count.player) self.old.counts.items }
        ensures added { OnOk result ((accounts : List Known) (uploads : List Judged)
            → HasUploaded accounts uploads self.old
            → HasUploaded accounts (uploads ++ upload ∷ []) self.new) }
        ensures rising { OnOk result (Rises (λ count. count.player) self.new.counts.items) }
    {
        count_upload(&mut self.counts, upload.player, upload.result_number);
        if upload.result_number == 0 {
            self.modules.insert(upload.player, upload.bytes)?;
        }
        Ok(())
    }

    /// Adds the uploads of a record.
    pub(crate) fn add_all(&mut self, uploads: Uploads) -> Result<(), NoMemory>
        requires { Rises (λ count. count.player) self.old.counts.items }
        ensures added { OnOk result ((accounts : List Known) (before : List Judged)
            → HasUploaded accounts before self.old → HasUploaded accounts (before ++ uploads) self.new) }
        ensures rising { OnOk result (Rises (λ count. count.player) self.new.counts.items) }
    {
        'each: for upload in uploads.into_vec() {
            self.add(upload)?;
        }
        Ok(())
    }
}
