// The serving of a world.
ghost use Rattle.std.specs.Prelude.{◌≡◌, ◌+◌, ◌<◌, ◌≤◌, false, List, length, map, string_bytes};
ghost use Rattle.std.specs.Prelude.{vec_capacity, vec_len, All, IfErr, IfOk, IfSome};
ghost use Rattle.claim_board.specs.Seats.{IsSeatOf};
ghost use Rattle.command_words.specs.Words.{AreServe, AsksToServe};
ghost use Rattle.frame_log.specs.Frames.{IsLog};
ghost use Rattle.tick_journal.specs.declared.tick_record.TickRecord.{TickRecord};
ghost use Rattle.world_hub.specs.Hub.{IsPassOfHub, IsTickerOf, ticker_sight};
ghost use Rattle.world_journal.specs.Journals.{IsQuiet};
ghost use Rattle.world_journal.specs.Recovering.{HasRecovered};
ghost use Rattle.world_run.specs.inner.Stages.{IsOfWords};
ghost use Rattle.shared_serve.specs.Lanes.{IsLane};
ghost use Rattle.shared_serve.specs.Served.{Serves};
ghost use Rattle.shared_serve.specs.inner.Ticks.{ServesFound};

use crate::NoMemory;
use crate::opening::open_served;
use crate::sessions::{LOOPS, Lane, serve_links};
use claim_board::{Board, Seat};
use command_words::{Command, WordsFault, read_words};
use recorded_tick::courses_can_be_hosted;
use run_status::Status;
use served_ticks::{serve_ticks, summary_of};
use std::alloc::Global;
use std::sync::Wait;
use std::thread::{Threads, join_mut};
use world_hub::{Hub, Pass, Ticker};
use world_io::{Disk, Source};
use world_journal::Recovered;
use world_link::{Door, Pace};
use world_run::load_world;
use world_text::{Tokens, WorldFile};

/// What the words ask for.
#[derive(Clone, Copy)]
struct Asked {
    ticks: u64,
    links: u32,
    workers: u32,
}

/// Serves a world for the words
/// `serve WORLD JOURNAL --ticks N --links M --port P --workers K --pace MS`: makes N ticks by K workers,
/// before each of which it waits for the pace, beside four loops that serve M links of the door, in which
/// players upload and ask how they stand. It ends when the ticks and the links are over, or the door is
/// closed.
///
/// The whole world file is read first; then the journal on the disk, which has to begin with this world, and
/// which the ticks go on with; where there is none it is begun. A failed disk, serials that are used up and
/// want of memory end the ticks alone, and are the answer. Where no thread can be made the links are served
/// when the ticks are over.
pub fn serve_shared<R: Threads + Wait + Sync, W: Source, D: Disk, O: Door + Sync, P: Pace>(
    rt: &R,
    alloc: Global,
    words: &[String],
    world: &mut W,
    disk: &mut D,
    door: &O,
    pace: &mut P,
) -> Status
where
    O::Line: Send,
    requires { IsQuiet (D.seen disk.old) (D.moments disk.old) }
    ensures { Serves (map string_bytes words.now)
        (record {
          world = W.left world.old;
          disk = D.seen disk.old;
          moments = D.moments disk.old;
          world_faults = W.faults world.old;
          disk_faults = D.faults disk.old;
        })
        (record {
          world = W.left world.new;
          disk = D.seen disk.new;
          moments = D.moments disk.new;
          world_faults = W.faults world.new;
          disk_faults = D.faults disk.new;
        }) result }
{
    let asked = match asked_by(alloc, words) {
        Ok(asked) => asked,
        Err(status) => return status,
    };
    let WorldFile { world, tokens } = match load_world(alloc, world) {
        Ok(file) => file,
        Err(status) => return status,
    };
    let from = match open_served(alloc, &world, disk) {
        Ok(from) => from,
        Err(status) => return status,
    };
    match prepare(rt, alloc, asked.links, &from) {
        Ok(prepared) => serve_prepared(rt, alloc, asked, from, prepared, &tokens, disk, door, pace),
        Err(_) => Status::Memory,
    }
}

// What the words ask for.
fn asked_by(alloc: Global, words: &[String]) -> Result<Asked, Status>
    ensures serve { IfOk result (λ asked. AsksToServe (map string_bytes words.now) asked.ticks) }
    ensures few { IfOk result (λ asked. asked.ticks ≤ 1000000) }
    ensures workers { IfOk result (λ asked. (0 < asked.workers) × (asked.workers ≤ 16)) }
    ensures usage { IfErr result (λ status. status ≡ Status.Usage
        → AreServe (map string_bytes words.now) → ⊥) }
    ensures only { IfErr result IsOfWords }
{
    match read_words(alloc, words) {
        Ok(
            Command::Serve {
                ticks,
                links,
                workers,
                ..
            },
        ) => Ok(Asked {
            ticks,
            links,
            workers,
        }),
        Ok(_) => Err(Status::Usage),
        Err(WordsFault::Usage) => Err(Status::Usage),
        Err(WordsFault::Memory) => Err(Status::Memory),
    }
}

// The hub and the board of the links, with what the ticks and the sessions need of them.
struct Prepared {
    hub: Hub,
    ticker: Ticker,
    board: Board,
    lanes: Vec<Lane>,
}

// A hub that tells the last world of a journal, and a board of so many links.
fn prepare<R: Wait>(
    rt: &R,
    alloc: Global,
    links: u32,
    from: &Recovered,
) -> Result<Prepared, NoMemory>
    requires { (entries : List TickRecord) × HasRecovered entries from.now }
    ensures ticker { IfOk result (λ made. IsTickerOf made.hub made.ticker) }
    ensures published { IfOk result (λ made. length (ticker_sight made.ticker).published ≡ 1) }
    ensures lanes { IfOk result (λ made. All (IsLane made.board made.hub) made.lanes.items) }
{
    courses_can_be_hosted();
    let first = summary_of(alloc, &from.world, from.uploads.as_slice())?;
    let (board, seats) = Board::new(alloc, links, LOOPS)?;
    let mut lanes = Vec::with_capacity(alloc, seats.len())?;
    let (hub, ticker, passes) = Hub::new(rt, alloc, LOOPS, first)?;
    fill(&board, &hub, seats, passes, &mut lanes);
    Ok(Prepared {
        hub,
        ticker,
        board,
        lanes,
    })
}

// A lane for each seat with a pass.
fn fill(
    board: &Board,
    hub: &Hub,
    mut seats: Vec<Seat>,
    mut passes: Vec<Pass>,
    lanes: &mut Vec<Lane>,
)
    requires seats { All (IsSeatOf board.now) seats.items }
    requires passes { All (IsPassOfHub hub.now) passes.items }
    requires lanes { All (IsLane board.now hub.now) lanes.old.items }
    requires room { vec_len lanes.old + vec_len seats ≤ vec_capacity lanes.old }
    ensures { All (IsLane board.now hub.now) lanes.new.items }
{
    while let Some(seat) = seats.pop() {
        match passes.pop() {
            Some(pass) => lanes.push_reserved(Lane { seat, pass }),
            None => return,
        }
    }
}

// Makes the ticks beside the sessions. The ticker is kept until the sessions have ended.
fn serve_prepared<R: Threads + Wait + Sync, D: Disk, O: Door + Sync, P: Pace>(
    rt: &R,
    alloc: Global,
    asked: Asked,
    from: Recovered,
    prepared: Prepared,
    tokens: &Tokens,
    disk: &mut D,
    door: &O,
    pace: &mut P,
) -> Status
where
    O::Line: Send,
    requires found { (entries : List TickRecord) × HasRecovered entries from }
    requires is_open { from.journal.log.is_closed ≡ false }
    requires log { IsLog from.journal.log.gate (D.seen disk.old) (D.moments disk.old) }
    requires ticker { IsTickerOf prepared.hub prepared.ticker }
    requires published { length (ticker_sight prepared.ticker).published ≡ 1 }
    requires lanes { All (IsLane prepared.board prepared.hub) prepared.lanes.items }
    requires ticks { asked.ticks ≤ 1000000 }
    requires workers { (0 < asked.workers) × (asked.workers ≤ 16) }
    ensures { ServesFound from asked.ticks (D.seen disk.old) (D.moments disk.old) (D.faults disk.old)
        (D.seen disk.new) (D.moments disk.new) (D.faults disk.new) result }
{
    let Prepared {
        hub,
        mut ticker,
        board,
        mut lanes,
    } = prepared;
    let mut from = Some(from);
    let status = serve_beside(
        rt,
        alloc,
        asked,
        &mut from,
        &hub,
        &mut ticker,
        &board,
        &mut lanes,
        tokens,
        disk,
        door,
        pace,
    );
    ticker.end(rt);
    status
}

// Serves the links in one thread, and makes the ticks in another.
fn serve_beside<R: Threads + Wait + Sync, D: Disk, O: Door + Sync, P: Pace>(
    rt: &R,
    alloc: Global,
    asked: Asked,
    from: &mut Option<Recovered>,
    hub: &Hub,
    ticker: &mut Ticker,
    board: &Board,
    lanes: &mut Vec<Lane>,
    tokens: &Tokens,
    disk: &mut D,
    door: &O,
    pace: &mut P,
) -> Status
where
    O::Line: Send,
    requires found { IfSome from.old (λ found. (entries : List TickRecord) × HasRecovered entries found) }
    requires is_open { IfSome from.old (λ found. found.journal.log.is_closed ≡ false) }
    requires log { IfSome from.old (λ found.
        IsLog found.journal.log.gate (D.seen disk.old) (D.moments disk.old)) }
    requires ticker { IsTickerOf hub.now ticker.old }
    requires published { length (ticker_sight ticker.old).published ≡ 1 }
    requires lanes { All (IsLane board.now hub.now) lanes.old.items }
    requires ticks { asked.ticks ≤ 1000000 }
    requires workers { (0 < asked.workers) × (asked.workers ≤ 16) }
    ensures { IfSome from.old (λ found. ServesFound found asked.ticks
        (D.seen disk.old) (D.moments disk.old) (D.faults disk.old)
        (D.seen disk.new) (D.moments disk.new) (D.faults disk.new) result) }
{
    let ((), status) = join_mut(
        rt,
        &mut ||
            requires { All (IsLane board.now hub.now) lanes.now.items }
        { serve_links(rt, alloc, door, board, hub, tokens, lanes) },
        &mut ||
            requires found { IfSome from.now
                (λ found. (entries : List TickRecord) × HasRecovered entries found) }
            requires is_open { IfSome from.now (λ found. found.journal.log.is_closed ≡ false) }
            requires log { IfSome from.now (λ found.
                IsLog found.journal.log.gate (D.seen disk.now) (D.moments disk.now)) }
            requires ticker { IsTickerOf hub.now ticker.now }
            requires published { length (ticker_sight ticker.now).published ≡ 1 }
            requires ticks { asked.ticks ≤ 1000000 }
            requires workers { (0 < asked.workers) × (asked.workers ≤ 16) }
            ensures { IfSome from.entry.now (λ found. ServesFound found asked.ticks
                (D.seen disk.entry.now) (D.moments disk.entry.now) (D.faults disk.entry.now)
                (D.seen disk.exit.now) (D.moments disk.exit.now) (D.faults disk.exit.now) result) }
        { serve_from(rt, alloc, asked, from, hub, ticker, disk, pace) },
    );
    status
}

// Makes the ticks of a journal that was recovered, which it takes.
#[tactic(auto, unfolding(crate::specs::inner::Ticks::ServesFound, crate::specs::inner::Ticks::ServesTicks))]
fn serve_from<R: Threads + Wait + Sync, D: Disk, P: Pace>(
    rt: &R,
    alloc: Global,
    asked: Asked,
    from: &mut Option<Recovered>,
    hub: &Hub,
    ticker: &mut Ticker,
    disk: &mut D,
    pace: &mut P,
) -> Status
    requires found { IfSome from.old (λ found. (entries : List TickRecord) × HasRecovered entries found) }
    requires is_open { IfSome from.old (λ found. found.journal.log.is_closed ≡ false) }
    requires log { IfSome from.old (λ found.
        IsLog found.journal.log.gate (D.seen disk.old) (D.moments disk.old)) }
    requires ticker { IsTickerOf hub.now ticker.old }
    requires published { length (ticker_sight ticker.old).published ≡ 1 }
    requires ticks { asked.ticks ≤ 1000000 }
    requires workers { (0 < asked.workers) × (asked.workers ≤ 16) }
    ensures { IfSome from.old (λ found. ServesFound found asked.ticks
        (D.seen disk.old) (D.moments disk.old) (D.faults disk.old)
        (D.seen disk.new) (D.moments disk.new) (D.faults disk.new) result) }
{
    match from.take() {
        Some(found) => serve_ticks(
            rt,
            alloc,
            found,
            hub,
            ticker,
            disk,
            pace,
            asked.ticks,
            asked.workers,
        ),
        None => Status::Done,
    }
}
