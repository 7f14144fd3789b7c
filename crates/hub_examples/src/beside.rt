// A session and the ticker side by side, each in a thread.
ghost use Rattle.std.specs.Prelude.{◌≡◌, ◌+◌, ◌-◌, ◌^◌, ◌<◌, ◌≤◌, min, length, ◌∷◌, ◌++◌, [], IfOk};
ghost use Rattle.world_hub.specs.Queue.{TookUpTo};
ghost use Rattle.world_hub.specs.Status.{told};
ghost use Rattle.world_hub.specs.Hub.{hand, ticker_hand_of, ticker_sight, IsPassOfHub, IsTickerOf};

use std::alloc::Global;
use std::sync::Wait;
use std::thread::{Threads, join_mut};
use world_hub::{Hub, NoMemory, Pass, Summary, Ticker, Upload};

/// Offers an upload for each player, and counts those that came back.
pub fn offer_each<R: Wait>(
    rt: &R,
    alloc: Global,
    hub: &Hub,
    pass: &mut Pass,
    players: &[u32],
) -> u64
    requires { IsPassOfHub hub.now pass.old }
    ensures pass { IsPassOfHub hub.now pass.new }
    ensures fulls { (hand pass.new).fulls ≡ min ((hand pass.old).fulls + result) (2 ^ 64 - 1) }
    ensures offers { length (hand pass.new).offers + result
        ≡ length (hand pass.old).offers + length players.now }
{
    let mut back = 0;
    for player in players {
        let upload = Upload {
            player: *player,
            bytes: Vec::new(alloc),
        };
        if hub.offer_upload(rt, pass, upload).is_err() {
            back += 1;
        }
    }
    back
}

/// Reads the status in one thread, and publishes in another.
pub fn read_beside<R: Threads + Wait + Sync>(
    rt: &R,
    hub: &Hub,
    pass: &mut Pass,
    ticker: &mut Ticker,
    next: Summary,
) -> (Summary, Result<(), NoMemory>)
    requires pass { IsPassOfHub hub.now pass.old }
    requires ticker { IsTickerOf hub.now ticker.old }
    requires fewer { length (ticker_sight ticker.old).published < 2 ^ 63 }
    ensures pass { IsPassOfHub hub.now pass.new }
    ensures ticker { IsTickerOf hub.now ticker.new }
    ensures published { IfOk result.1 (λ _. ticker_sight ticker.new
        ≡ told (ticker_sight ticker.old) ((ticker_sight ticker.old).published ++ next ∷ [])) }
{
    join_mut(
        rt,
        &mut || hub.read_status(rt, pass),
        &mut || hub.publish(rt, ticker, next),
    )
}

/// Offers in one thread, and takes in another.
pub fn offer_beside<R: Threads + Wait + Sync>(
    rt: &R,
    alloc: Global,
    hub: &Hub,
    pass: &mut Pass,
    ticker: &mut Ticker,
    players: &[u32],
) -> (u64, Result<Vec<Upload>, NoMemory>)
    requires pass { IsPassOfHub hub.now pass.old }
    requires ticker { IsTickerOf hub.now ticker.old }
    ensures pass { IsPassOfHub hub.now pass.new }
    ensures offers { length (hand pass.new).offers + result.0
        ≡ length (hand pass.old).offers + length players.now }
    ensures ticker { IsTickerOf hub.now ticker.new × (ticker.new.writer ≡ ticker.old.writer) }
    ensures taken { IfOk result.1
        (λ v. TookUpTo (ticker_hand_of ticker.old) v.items (ticker_hand_of ticker.new)) }
{
    join_mut(
        rt,
        &mut || offer_each(rt, alloc, hub, pass, players),
        &mut || hub.take_uploads(rt, alloc, ticker),
    )
}
