// What players are told of a world.
ghost use Rattle.std.specs.Prelude.{◌≡◌, ◌-◌, ◌^◌, ◌≤◌, List, length, map, min, IfOk};
ghost use Rattle.run_lines.specs.Lines.{object_count as object_count_of, total_energy as total_energy_of};
ghost use Rattle.tick_journal.specs.declared.tick_record.TickRecord.{TickRecord};
ghost use Rattle.world_hub.specs.Summary.{lines_of};
ghost use Rattle.world_journal.specs.Recovering.{count_of};
ghost use Rattle.served_ticks.specs.Summaries.{IsSummaryOf, line_of, line_with, lines_with};

use crate::NoMemory;
use object_store::{Account, World};
use run_lines::{object_count, total_energy};
use std::alloc::Global;
use world_hub::{PlayerLine, Summary};
use world_journal::UploadCount;

/// The summary of a world of at most 64 accounts, with a line for each by the count at its place. Energy that
/// 64 bits don't hold, which no world that keeps the rules has, is told as 2^64 - 1.
pub fn summary_of(alloc: Global, world: &World, counts: &[UploadCount]) -> Result<Summary, NoMemory>
    requires { length world.now.accounts ≤ 64 }
    ensures { IfOk result (λ summary. (entries : List TickRecord)
        → counts.now ≡ map (count_of entries) world.now.accounts → IsSummaryOf entries world.now summary) }
{
    let lines = lines_by(alloc, world.account_list(), counts)?;
    let energy = most_energy(total_energy(world));
    Ok(Summary::new(
        world.tick(),
        world.rooms(),
        object_count(world),
        energy,
        &lines,
    ))
}

// A sum of energy as far as 64 bits hold it.
fn most_energy(energy: u128) -> u64
    ensures { result ≡ min energy (2 ^ 64 - 1) }
{
    if energy < 0xffff_ffff_ffff_ffff {
        energy as u64
    } else {
        u64::MAX
    }
}

// A line for each account, by the count at its place.
fn lines_by(
    alloc: Global,
    accounts: &[Account],
    counts: &[UploadCount],
) -> Result<Vec<PlayerLine>, NoMemory>
    ensures { IfOk result (λ lines. lines.items ≡ lines_with accounts.now counts.now) }
{
    let mut lines = Vec::new(alloc);
    for place in 0..accounts.len().min(counts.len()) {
        lines.push(line_by(&accounts[place], &counts[place]))?;
    }
    Ok(lines)
}

// The line of an account, by its count.
fn line_by(account: &Account, count: &UploadCount) -> PlayerLine
    ensures { result ≡ line_with account.now count.now }
{
    PlayerLine {
        player: account.player,
        uploads: count.uploads,
        last: count.last,
        bucket: account.bucket,
        points: account.points,
    }
}
