// Ticks over a hub.
ghost use Rattle.std.specs.Prelude.{◌≡◌, ◌≢◌, ℕ, ◌+◌, ◌-◌, ◌^◌, ◌<◌, ◌≤◌, List, [], ◌∷◌, ◌++◌, false};
ghost use Rattle.std.specs.Prelude.{length, map, IfErr, IfOk, IfSome, OnErr, OnOk};
ghost use Rattle.frame_log.specs.Frames.{IsLog};
ghost use Rattle.world_io.specs.Causes.{Rose};
ghost use Rattle.object_store.specs.Stored.{Stored};
ghost use Rattle.object_store.specs.declared.account.Account.{Account};
ghost use Rattle.player_runs.specs.PlayerRuns.{AreRunsOf, MayBeRun};
ghost use Rattle.room_step.specs.Steps.{AreStepped, MayBeStepped};
ghost use Rattle.tick_journal.specs.declared.entries.UploadEntry.{UploadEntry};
ghost use Rattle.tick_journal.specs.declared.tick_record.TickRecord.{TickRecord};
ghost use Rattle.upload_stream.specs.Streams.{Upload};
ghost use Rattle.world_hub.specs.declared.summary.Summary.{Summary};
ghost use Rattle.world_hub.specs.Hub.{IsTickerOf, ticker_hand_of, ticker_sight};
ghost use Rattle.world_journal.specs.Journals.{HasJournal};
ghost use Rattle.world_journal.specs.Recovering.{HasRecovered, count_of};
ghost use Rattle.world_journal.specs.inner.Counting.{count_for};
ghost use Rattle.world_run.specs.inner.Held.{IsKeptAt};
ghost use Rattle.world_run.specs.inner.Stages.{IsOfMaking};
ghost use Rattle.served_ticks.specs.Serving.{Serves};
ghost use Rattle.served_ticks.specs.Summaries.{IsSummaryOf};
ghost use Rattle.served_ticks.specs.inner.OneTick.{AreOf, HasCounts, IsServedOnce, IsStopped, IsTaken};
ghost use Rattle.served_ticks.specs.inner.OneTick.{MayGoOn};

use crate::NoMemory;
use crate::counts::count_all;
use crate::given::stream_of;
use crate::served::Served;
use crate::summary::summary_of;
use intent_book::{Intents, PlayerRun};
use judged_uploads::JudgedUploads;
use object_store::{Room, World};
use player_jobs::{RunsBy, runs_by_workers};
use player_runs::{PlayerModule, RunsPlayers};
use room_jobs::{StepsBy, stepped_by_workers};
use room_step::{SteppedRoom, StepsRooms};
use run_status::Status;
use std::alloc::Global;
use std::sync::Wait;
use std::thread::Threads;
use upload_stream::{Uploads, stream_is_judged_once};
use world_hub::{Hub, Ticker};
use world_io::{Disk, OpenGate};
use world_journal::{Recovered, UploadCount};
use world_link::Pace;
use world_roster::Roster;
use world_run::{KeptTick, Resumed, record_tick, resume};

/// Makes so many ticks, at most 1,000,000, of the journal that was recovered from this disk, by so many
/// workers, 1 to 16. Before each it waits for the pace, and then takes the uploads that wait in the hub, at
/// most 64; the tick is recorded, and only then told to the hub.
///
/// The answer is `Done`, `DiskFault`, `IdsExhausted` or `Memory`. It waits for the pace, for its turn at the
/// queue, for those that read an earlier summary, and for its workers.
pub fn serve_ticks<R: Threads + Wait + Sync, D: Disk, P: Pace>(
    rt: &R,
    alloc: Global,
    from: Recovered,
    hub: &Hub,
    ticker: &mut Ticker,
    disk: &mut D,
    pace: &mut P,
    ticks: u64,
    workers: u32,
) -> Status
    requires found { (entries : List TickRecord) × HasRecovered entries from }
    requires is_open { from.journal.log.is_closed ≡ false }
    requires log { IsLog from.journal.log.gate (D.seen disk.old) (D.moments disk.old) }
    requires ticker { IsTickerOf hub.now ticker.old }
    requires published { length (ticker_sight ticker.old).published < 2 ^ 62 }
    requires ticks { ticks ≤ 1000000 }
    requires some { 0 < workers }
    requires most { workers ≤ 16 }
    ensures ticker { IsTickerOf hub.now ticker.new }
    ensures serves { (entries : List TickRecord) → HasRecovered entries from
        → IfSome (D.seen disk.old) (λ bytes. HasJournal from.base entries from.journal.log.gate
        (D.seen disk.old) (D.moments disk.old))
        → Serves from.base entries from.journal.log.gate ticks
        (record {
          disk = D.seen disk.old;
          moments = D.moments disk.old;
          faults = D.faults disk.old;
          hand = ticker_hand_of ticker.old;
          sight = ticker_sight ticker.old;
        })
        (record {
          disk = D.seen disk.new;
          moments = D.moments disk.new;
          faults = D.faults disk.new;
          hand = ticker_hand_of ticker.new;
          sight = ticker_sight ticker.new;
        }) result }
{
    let runs = |alloc: Global, world: &World, roster: &Roster, players: &[PlayerModule]| -> Result<
        Vec<PlayerRun>,
        NoMemory,
    >
        requires { (0 < workers) × (workers ≤ 16) × MayBeRun world.now roster.now players.now }
        ensures { IfOk result (λ runs. AreRunsOf world.entry.now players.entry.now runs.items) }
    { runs_by_workers(rt, alloc, world, roster, players, &OpenGate, workers) };
    let steps = |alloc: Global, rooms: Vec<Room>, lists: &[Intents]| -> Result<
        Vec<SteppedRoom>,
        NoMemory,
    >
        requires { (0 < workers) × (workers ≤ 16) × MayBeStepped rooms.items lists.now }
        ensures { IfOk result (λ stepped. AreStepped lists.entry.now rooms.items stepped.items) }
    { stepped_by_workers(rt, alloc, rooms, lists, &OpenGate, workers) };
    serve_by(
        rt,
        alloc,
        &RunsBy { runs: &runs },
        &StepsBy { steps: &steps },
        from,
        hub,
        ticker,
        disk,
        pace,
        ticks,
    )
}

/// The same, with the players run and the rooms stepped by others.
pub fn serve_by<R: Wait, X: RunsPlayers, S: StepsRooms, D: Disk, P: Pace>(
    rt: &R,
    alloc: Global,
    runner: &X,
    stepper: &S,
    from: Recovered,
    hub: &Hub,
    ticker: &mut Ticker,
    disk: &mut D,
    pace: &mut P,
    ticks: u64,
) -> Status
    requires runner { X.ready runner.now }
    requires stepper { S.ready stepper.now }
    requires found { (entries : List TickRecord) × HasRecovered entries from }
    requires is_open { from.journal.log.is_closed ≡ false }
    requires log { IsLog from.journal.log.gate (D.seen disk.old) (D.moments disk.old) }
    requires ticker { IsTickerOf hub.now ticker.old }
    requires published { length (ticker_sight ticker.old).published < 2 ^ 62 }
    requires ticks { ticks ≤ 1000000 }
    ensures ticker { IsTickerOf hub.now ticker.new }
    ensures serves { (entries : List TickRecord) → HasRecovered entries from
        → IfSome (D.seen disk.old) (λ bytes. HasJournal from.base entries from.journal.log.gate
        (D.seen disk.old) (D.moments disk.old))
        → Serves from.base entries from.journal.log.gate ticks
        (record {
          disk = D.seen disk.old;
          moments = D.moments disk.old;
          faults = D.faults disk.old;
          hand = ticker_hand_of ticker.old;
          sight = ticker_sight ticker.old;
        })
        (record {
          disk = D.seen disk.new;
          moments = D.moments disk.new;
          faults = D.faults disk.new;
          hand = ticker_hand_of ticker.new;
          sight = ticker_sight ticker.new;
        }) result }
{
    let Ok(resumed) = resume(alloc, from) else {
        return Status::Memory;
    };
    let Resumed { kept, uploads } = resumed;
    let first = Served {
        kept,
        counts: uploads.into_vec(),
    };
    serve_all(
        rt, alloc, runner, stepper, first, hub, ticker, disk, pace, ticks,
    )
}

// Serves so many ticks of a world.
fn serve_all<R: Wait, X: RunsPlayers, S: StepsRooms, D: Disk, P: Pace>(
    rt: &R,
    alloc: Global,
    runner: &X,
    stepper: &S,
    first: Served,
    hub: &Hub,
    ticker: &mut Ticker,
    disk: &mut D,
    pace: &mut P,
    ticks: u64,
) -> Status
    requires runner { X.ready runner.now }
    requires stepper { S.ready stepper.now }
    requires served { MayGoOn first (D.seen disk.old) (D.moments disk.old) }
    requires tick { first.kept.hosted.world.tick + ticks < 2 ^ 64 - 1 }
    requires ticker { IsTickerOf hub.now ticker.old }
    requires published { length (ticker_sight ticker.old).published + ticks < 2 ^ 63 }
    ensures ticker { IsTickerOf hub.now ticker.new }
    ensures serves { (base : Stored) (entries : List TickRecord)
        → IsKeptAt base entries first.kept (D.seen disk.old) (D.moments disk.old) → HasCounts entries first
        → Serves base entries first.kept.journal.log.gate ticks
        (record {
          disk = D.seen disk.old;
          moments = D.moments disk.old;
          faults = D.faults disk.old;
          hand = ticker_hand_of ticker.old;
          sight = ticker_sight ticker.old;
        })
        (record {
          disk = D.seen disk.new;
          moments = D.moments disk.new;
          faults = D.faults disk.new;
          hand = ticker_hand_of ticker.new;
          sight = ticker_sight ticker.new;
        }) result }
{
    let mut served = first;
    for _turn in 0..ticks {
        match serve_one(rt, alloc, runner, stepper, served, hub, ticker, disk, pace) {
            Ok(next) => served = next,
            Err(status) => return status,
        }
    }
    Status::Done
}

// Serves one tick of a world: it waits for the pace, takes the uploads that wait, makes and records the tick
// with them, and tells it.
fn serve_one<R: Wait, X: RunsPlayers, S: StepsRooms, D: Disk, P: Pace>(
    rt: &R,
    alloc: Global,
    runner: &X,
    stepper: &S,
    served: Served,
    hub: &Hub,
    ticker: &mut Ticker,
    disk: &mut D,
    pace: &mut P,
) -> Result<Served, Status>
    requires runner { X.ready runner.now }
    requires stepper { S.ready stepper.now }
    requires served { MayGoOn served (D.seen disk.old) (D.moments disk.old) }
    requires tick { served.kept.hosted.world.tick < 2 ^ 64 - 1 }
    requires ticker { IsTickerOf hub.now ticker.old }
    requires published { length (ticker_sight ticker.old).published < 2 ^ 63 }
    ensures ticker { IsTickerOf hub.now ticker.new }
    ensures once { IfOk result (λ next. (given : List Upload)
        × IsTaken served.kept given (ticker_hand_of ticker.old) (ticker_hand_of ticker.new)
        × IsServedOnce given served (D.seen disk.old) (D.moments disk.old) (ticker_sight ticker.old)
        next (D.seen disk.new) (D.moments disk.new) (ticker_sight ticker.new)) }
    ensures goes_on { IfOk result (λ next. MayGoOn next (D.seen disk.new) (D.moments disk.new)) }
    ensures stopped { IfErr result (λ status. (given : List Upload)
        × IsTaken served.kept given (ticker_hand_of ticker.old) (ticker_hand_of ticker.new)
        × IsStopped given served.kept (D.seen disk.old) (D.moments disk.old) (ticker_sight ticker.old)
        (D.seen disk.new) (D.moments disk.new) (ticker_sight ticker.new) status) }
    ensures only { IfErr result IsOfMaking }
    ensures disk_fault { IfErr result (λ status. status ≡ Status.DiskFault
        → Rose (D.faults disk.old) (D.faults disk.new)) }
    ensures steady { OnOk result (D.faults disk.new ≡ D.faults disk.old) }
    ensures steady_else { IfErr result (λ status. status ≢ Status.DiskFault
        → D.faults disk.new ≡ D.faults disk.old) }
    ensures later { D.faults disk.old ≤ D.faults disk.new }
{
    stream_is_judged_once();
    pace.wait();
    let Ok(taken) = hub.take_uploads(rt, alloc, ticker) else {
        return Err(Status::Memory);
    };
    let Ok(stream) = stream_of(alloc, served.kept.hosted.world().tick(), &taken) else {
        return Err(Status::Memory);
    };
    match Uploads::read(&stream) {
        Ok(uploads) => serve_taken(
            rt, alloc, runner, stepper, served, uploads, hub, ticker, disk,
        ),
        Err(_) => unreachable!(),
    }
}

// Makes and records a tick with these uploads, and then tells it.
fn serve_taken<R: Wait, X: RunsPlayers, S: StepsRooms, D: Disk>(
    rt: &R,
    alloc: Global,
    runner: &X,
    stepper: &S,
    served: Served,
    uploads: Uploads<'_>,
    hub: &Hub,
    ticker: &mut Ticker,
    disk: &mut D,
) -> Result<Served, Status>
    requires runner { X.ready runner.now }
    requires stepper { S.ready stepper.now }
    requires served { MayGoOn served (D.seen disk.old) (D.moments disk.old) }
    requires tick { served.kept.hosted.world.tick < 2 ^ 64 - 1 }
    requires uploads { AreOf served.kept.hosted.world.tick uploads }
    requires ticker { IsTickerOf hub.now ticker.old }
    requires published { length (ticker_sight ticker.old).published < 2 ^ 63 }
    ensures ticker { IsTickerOf hub.now ticker.new × (ticker_hand_of ticker.new ≡ ticker_hand_of ticker.old) }
    ensures once { IfOk result (λ next. IsServedOnce uploads.entry served (D.seen disk.old)
        (D.moments disk.old) (ticker_sight ticker.old)
        next (D.seen disk.new) (D.moments disk.new) (ticker_sight ticker.new)) }
    ensures goes_on { IfOk result (λ next. MayGoOn next (D.seen disk.new) (D.moments disk.new)) }
    ensures stopped { IfErr result (IsStopped uploads.entry served.kept (D.seen disk.old)
        (D.moments disk.old) (ticker_sight ticker.old)
        (D.seen disk.new) (D.moments disk.new) (ticker_sight ticker.new)) }
    ensures only { IfErr result IsOfMaking }
    ensures disk_fault { IfErr result (λ status. status ≡ Status.DiskFault
        → Rose (D.faults disk.old) (D.faults disk.new)) }
    ensures steady { OnOk result (D.faults disk.new ≡ D.faults disk.old) }
    ensures steady_else { IfErr result (λ status. status ≢ Status.DiskFault
        → D.faults disk.new ≡ D.faults disk.old) }
    ensures later { D.faults disk.old ≤ D.faults disk.new }
{
    let Served { kept, counts } = served;
    let done = match record_tick(alloc, runner, stepper, kept, uploads, disk) {
        Ok(done) => done,
        Err(status) => return Err(status),
    };
    let KeptTick {
        kept: next,
        uploads: judged,
        lines: _,
        room: _,
    } = done;
    match tell_tick(rt, alloc, next.hosted.world(), counts, &judged, hub, ticker) {
        Ok(counts) => Ok(Served { kept: next, counts }),
        Err(_) => Err(Status::Memory),
    }
}

// Tells the hub the summary of the world after a tick with these uploads, and gives the counts after them.
fn tell_tick<R: Wait>(
    rt: &R,
    alloc: Global,
    world: &World,
    counts: Vec<UploadCount>,
    uploads: &JudgedUploads<'_>,
    hub: &Hub,
    ticker: &mut Ticker,
) -> Result<Vec<UploadCount>, NoMemory>
    requires few { length world.now.accounts ≤ 64 }
    requires ticker { IsTickerOf hub.now ticker.old }
    requires published { length (ticker_sight ticker.old).published < 2 ^ 63 }
    ensures ticker { IsTickerOf hub.now ticker.new × (ticker_hand_of ticker.new ≡ ticker_hand_of ticker.old) }
    ensures counted { IfOk result (λ after. (accounts : List Account) (before : List UploadEntry)
        → counts.items ≡ map (λ account. count_for account.player before) accounts
        → after.items ≡ map (λ account. count_for account.player (before ++ uploads.now)) accounts) }
    ensures told { IfOk result (λ after. (summary : Summary)
        × ((ticker_sight ticker.new).published ≡ (ticker_sight ticker.old).published ++ summary ∷ [])
        × ((entries : List TickRecord) → after.items ≡ map (count_of entries) world.now.accounts
        → IsSummaryOf entries world.now summary)) }
    ensures untold { OnErr result
        ((ticker_sight ticker.new).published ≡ (ticker_sight ticker.old).published) }
{
    let counts = count_all(alloc, counts, uploads)?;
    let summary = summary_of(alloc, world, &counts)?;
    hub.publish(rt, ticker, summary)?;
    Ok(counts)
}
