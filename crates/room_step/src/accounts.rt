// The accounts after a tick.
ghost use Rattle.std.specs.Prelude.{◌≡◌, ◌<◌, ◌^◌, [], ℕ, map, length, option_map, IfOk, OnOk};
ghost use Rattle.object_store.specs.Stored.{AreRising};
ghost use Rattle.world_rules.specs.Tick.{account_after, bucket_after, points_after, run_of};
ghost use Rattle.ruled_tick.specs.inner.Entered.{AreGains};
ghost use Rattle.room_step.specs.inner.Rooms.{accounted};

use crate::NoMemory;
use game_tables::{most_bucket, unit_instructions};
use intent_book::PlayerRun;
use object_store::{Account, Bytes, World};
use ruled_tick::raised_points;
use std::alloc::Global;

/// The accounts after the runs, with the points that their players gained.
pub(crate) fn push_accounted(
    alloc: Global,
    accounts: &[Account],
    gains: &[u64],
    runs: &[PlayerRun],
    next: &mut World,
) -> Result<(), NoMemory>
    requires rising { AreRising accounts.now }
    requires within { length accounts.now < 2 ^ 32 }
    requires gains { (gain : ℕ → ℕ) × AreGains gain accounts.now gains.now }
    requires none { next.old.accounts ≡ [] }
    ensures { OnOk result ((gain : ℕ → ℕ) → AreGains gain accounts.now gains.now
        → next.new ≡ record next.old { accounts = map (accounted gain runs.now) accounts.now }) }
{
    for (index, account) in accounts.iter().enumerate() {
        next.push_account(after_runs(alloc, account, gains[index], runs)?)?;
    }
    Ok(())
}

fn after_runs(
    alloc: Global,
    account: &Account,
    gain: u64,
    runs: &[PlayerRun],
) -> Result<Account, NoMemory>
    ensures { IfOk result
        (λ next. next ≡ account_after gain account.now (run_of account.now.player runs.now)) }
{
    match run_of(runs, account.player) {
        Some(run) => filled(alloc, account, gain, run.used, &run.memory),
        None => filled(alloc, account, gain, 0, &account.memory),
    }
}

// The run of a player.
fn run_of(runs: &[PlayerRun], player: u32) -> Option<&PlayerRun>
    ensures { option_map (λ run. run.now) result ≡ run_of player runs.now }
{
    runs.iter().find(|run| run.player == player)
}

// The account with its bucket after a run that took so many instructions, with the points that its player
// gained, and with a memory text.
fn filled(
    alloc: Global,
    account: &Account,
    gain: u64,
    used: u64,
    memory: &Bytes,
) -> Result<Account, NoMemory>
    ensures { IfOk result
        (λ next. next ≡ record account.now {
          bucket = bucket_after account.now used;
          points = points_after account.now gain;
          memory = memory.now;
        }) }
{
    Ok(Account {
        player: account.player,
        limit: account.limit,
        bucket: filled_bucket(account, used),
        points: raised_points(account, gain),
        memory: Bytes::of(alloc, memory.as_slice())?,
    })
}

// The bucket with the limit added and the used units taken out, up to its bound.
fn filled_bucket(account: &Account, used: u64) -> u32
    ensures { result ≡ bucket_after account.now used }
{
    let whole = used / unit_instructions();
    let begun = u64::from(used % unit_instructions() != 0);
    let saved = u64::from(account.limit) + u64::from(account.bucket);
    saved
        .saturating_sub(whole + begun)
        .min(u64::from(most_bucket())) as u32
}
