// How many uploads each player has in a journal, as ticks are recorded.
ghost use Rattle.std.specs.Prelude.{◌≡◌, List, ◌++◌, map, IfOk};
ghost use Rattle.object_store.specs.declared.account.Account.{Account};
ghost use Rattle.tick_journal.specs.declared.entries.UploadEntry.{UploadEntry};
ghost use Rattle.world_journal.specs.inner.Counting.{count_for, counted};

use crate::NoMemory;
use judged_uploads::JudgedUploads;
use std::alloc::Global;
use world_journal::UploadCount;

/// The counts after the uploads of a tick.
pub(crate) fn count_all(
    alloc: Global,
    counts: Vec<UploadCount>,
    uploads: &JudgedUploads<'_>,
) -> Result<Vec<UploadCount>, NoMemory>
    ensures { IfOk result (λ after. (accounts : List Account) (before : List UploadEntry)
        → counts.items ≡ map (λ account. count_for account.player before) accounts
        → after.items ≡ map (λ account. count_for account.player (before ++ uploads.now)) accounts) }
{
    let mut after = counts;
    let mut left = uploads.entries();
    'each: while let Some(entry) = left.next() {
        after = count_one(alloc, &after, entry.player, entry.result_number)?;
    }
    Ok(after)
}

// The counts after one upload with this result.
fn count_one(
    alloc: Global,
    counts: &[UploadCount],
    player: u32,
    result_number: u8,
) -> Result<Vec<UploadCount>, NoMemory>
    ensures { IfOk result (λ after. after.items ≡ map (counted player result_number) counts.now) }
{
    counts
        .iter()
        .map(|count| count_by(*count, player, result_number))
        .collect(alloc)
}

// A count after an upload, which may be another player's.
fn count_by(count: UploadCount, player: u32, result_number: u8) -> UploadCount
    ensures { result ≡ counted player result_number count }
{
    if count.player == player {
        UploadCount {
            player: count.player,
            uploads: count.uploads.saturating_add(1),
            last: result_number,
        }
    } else {
        count
    }
}
