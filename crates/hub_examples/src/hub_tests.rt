// Offers, takings, publishes and reads, one after the other and side by side.
ghost use Rattle.std.specs.Prelude.{◌≡◌, ◌^◌, ◌<◌, All, IfSome, length};
ghost use Rattle.world_hub.specs.Hub.{ticker_sight, IsPassOfHub, IsTickerOf};

use crate::beside::{offer_beside, offer_each, read_beside};
use std::alloc::Global;
use std::sync::Wait;
use std::test::Fail;
use std::thread::Threads;
use world_hub::{Hub, NoMemory, Pass, PlayerLine, Summary, Ticker, Upload};

fn next_pass(hub: &Hub, passes: &mut Vec<Pass>) -> Option<Pass>
    requires { All (IsPassOfHub hub.now) passes.old.items }
    ensures pass { IfSome result (IsPassOfHub hub.now) }
    ensures rest { All (IsPassOfHub hub.now) passes.new.items }
{
    passes.pop()
}

fn count(taken: Result<Vec<Upload>, NoMemory>) -> Option<usize> {
    match taken {
        Ok(uploads) => Some(uploads.len()),
        Err(_) => None,
    }
}

#[derive(Clone, Copy)]
struct Taken {
    first: Option<usize>,
    second: Option<usize>,
    beside: Option<usize>,
    last: Option<usize>,
}

// 66 offers, two takings, and 40 offers beside a taking: what came back, and what was taken.
fn offers<R: Threads + Wait + Sync>(
    rt: &R,
    alloc: Global,
    hub: &Hub,
    pass: &mut Pass,
    ticker: &mut Ticker,
) -> (u64, Taken)
    requires pass { IsPassOfHub hub.now pass.old }
    requires ticker { IsTickerOf hub.now ticker.old }
    ensures pass { IsPassOfHub hub.now pass.new }
    ensures ticker { IsTickerOf hub.now ticker.new × (ticker.new.writer ≡ ticker.old.writer) }
{
    let back = offer_each(rt, alloc, hub, pass, &[3u32; 66]);
    let first = count(hub.take_uploads(rt, alloc, ticker));
    let second = count(hub.take_uploads(rt, alloc, ticker));
    let (more, beside) = offer_beside(rt, alloc, hub, pass, ticker, &[3u32; 40]);
    let last = count(hub.take_uploads(rt, alloc, ticker));
    let taken = Taken {
        first,
        second,
        beside: count(beside),
        last,
    };
    (back.saturating_add(more), taken)
}

// A read beside a publish, and a read after it.
fn reads<R: Threads + Wait + Sync>(
    rt: &R,
    hub: &Hub,
    pass: &mut Pass,
    ticker: &mut Ticker,
    next: Summary,
) -> (u64, Summary)
    requires pass { IsPassOfHub hub.now pass.old }
    requires ticker { IsTickerOf hub.now ticker.old }
    requires fewer { length (ticker_sight ticker.old).published < 2 ^ 63 }
    ensures pass { IsPassOfHub hub.now pass.new }
    ensures ticker { IsTickerOf hub.now ticker.new }
{
    let (seen, _told) = read_beside(rt, hub, pass, ticker, next);
    (seen.tick, hub.read_status(rt, pass))
}

fn whole<R: Threads + Wait + Sync>(
    rt: &R,
    alloc: Global,
    first: Summary,
    later: Summary,
) -> Option<(u64, Taken, u64, Summary)> {
    let (hub, mut ticker, mut passes) = match Hub::new(rt, alloc, 2, first) {
        Ok(made) => made,
        Err(_) => return None,
    };
    let one = next_pass(&hub, &mut passes);
    let other = next_pass(&hub, &mut passes);
    let found = match (one, other) {
        (Some(mut one), Some(mut other)) => {
            let (back, taken) = offers(rt, alloc, &hub, &mut one, &mut ticker);
            let (tick, now) = reads(rt, &hub, &mut other, &mut ticker, later);
            Some((back, taken, tick, now))
        }
        _ => None,
    };
    ticker.end(rt);
    found
}

#[test]
fn a_round(rt: HostRuntime) -> Result<(), Fail> {
    let line = PlayerLine {
        player: 3,
        uploads: 0,
        last: 255,
        bucket: 20,
        points: 0,
    };
    let first = Summary::new(7, 1, 2, 1001, &[line]);
    let later = Summary::new(8, 1, 2, 2499, &[line]);
    let found = whole(&rt, rt.alloc(), first, later);
    assert!(rt; found.is_some());
    if let Some((back, taken, tick, now)) = found {
        assert!(rt; back == 2 && taken.first == Some(64) && taken.second == Some(0));
        assert_eq!(rt;
            taken
                .beside
                .unwrap_or(100)
                .saturating_add(taken.last.unwrap_or(100)),
            40
        );
        assert!(rt; (tick == 7 || tick == 8) && now.tick == 8 && now.energy == 2499);
        assert_eq!(rt; now.line(3).map(|l| l.bucket), Some(20));
        assert!(rt; now.line(4).is_none());
    }
    Ok(())
}
