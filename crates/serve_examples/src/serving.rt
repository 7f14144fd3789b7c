// The serving of a journal in memory by two workers, with uploads that wait in the hub.
ghost use Rattle.std.specs.Prelude.{◌≡◌, All, IfSome};
ghost use Rattle.world_hub.specs.Hub.{IsPassOfHub};

use run_status::Status;
use served_ticks::{serve_ticks, summary_of};
use std::alloc::{AllocError, Global};
use std::sync::Wait;
use std::test::Fail;
use std::thread::Threads;
use world_hub::{Hub, Pass, Summary, Upload};
use world_io::{MemoryDisk, MemorySink, MemorySource};
use world_journal::Journal;
use world_link::Pace;
use world_run::run_alone;

/// `(module (func (export "loop")))`, in 34 bytes
pub const LOOP: &[u8] =
    b"\0asm\x01\0\0\0\x01\x04\x01\x60\0\0\x03\x02\x01\0\x07\x08\x01\x04loop\0\0\x0a\x04\x01\x02\0\x0b";

// A pace that counts how often it was waited for.
#[derive(Drop)]
struct Counted {
    waits: u64,
}

impl Pace for Counted {
    fn wait(&mut self) {
        self.waits = self.waits.saturating_add(1);
    }
}

/// What came of serving: how it ended, what was told before and after, how often the pace was waited for, and
/// the journal that is left.
#[derive(Drop)]
pub struct Served {
    pub status: Status,
    pub opening: Summary,
    pub told: Summary,
    pub waits: u64,
    pub journal: Vec<u8>,
}

/// A room of one source that is renewed at once, and a pile of 1,001, and two players, of whom player 3 has a
/// token.
pub fn world(alloc: Global) -> Result<String, AllocError> {
    world_of(alloc, 1001)
}

/// The same with a pile of so much energy.
pub fn world_of(alloc: Global, pile: u64) -> Result<String, AllocError> {
    // (tiles of plain ground: a zero that is padded to so many, with walls at the corners)
    let plain = 0;
    let ground = format!(in alloc; "1{plain:048}1{plain:02400}1{plain:048}1")?;
    let source = "{\"id\":1,\"kind\":\"source\",\"x\":10,\"y\":10,\"timer\":1}";
    let pile = format!(in alloc;
        "{{\"id\":2,\"kind\":\"pile\",\"x\":20,\"y\":20,\"energy\":{pile}}}"
    )?;
    let players = "{\"player\":1,\"limit\":20},{\"player\":3,\"limit\":20,\"token\":\"abc\"}";
    format!(in alloc;
        "{{\"version\":1,\"tick\":0,\"rooms\":[{{\"name\":\"E0S0\",\"terrain\":\"{ground}\",\
        \"next\":3,\"objects\":[{source},{pile}]}}],\"players\":[{players}]}}"
    )
}

// A stream of one upload of the module at tick 0 by each of these players.
fn stream(alloc: Global, players: &[u32]) -> Result<Vec<u8>, AllocError> {
    let mut stream = Vec::new(alloc);
    for player in players {
        stream.extend_from_slice(&[0; 8])?;
        stream.extend_from_slice(&player.to_le_bytes())?;
        stream.extend_from_slice(&[LOOP.len() as u8, 0, 0, 0])?;
        stream.extend_from_slice(LOOP)?;
    }
    Ok(stream)
}

/// The journal of a run of so many ticks, in which these players upload the module for the first one.
pub fn run_journal(alloc: Global, ticks: &str, players: &[u32]) -> Result<Vec<u8>, Fail> {
    let mut words = Vec::new(alloc);
    for word in ["run", "w.json", "u.bin", "j.bin", "--ticks", ticks] {
        words.push(String::from_str(alloc, word)?)?;
    }
    let text = Vec::from_slice(alloc, world(alloc)?.as_bytes())?;
    let mut world = MemorySource::new(text, Vec::new(alloc));
    let mut uploads = MemorySource::new(stream(alloc, players)?, Vec::new(alloc));
    let mut out = MemorySink::new(alloc, Vec::new(alloc));
    let mut disk = MemoryDisk::new(Vec::new(alloc), Vec::new(alloc), None);
    match run_alone(alloc, &words, &mut world, &mut uploads, &mut out, &mut disk) {
        Status::Done => Ok(Vec::from_slice(alloc, disk.bytes())?),
        _ => Err("the run ended early".into()),
    }
}

fn next_pass(hub: &Hub, passes: &mut Vec<Pass>) -> Option<Pass>
    requires { All (IsPassOfHub hub.now) passes.old.items }
    ensures { IfSome result (IsPassOfHub hub.now) }
{
    passes.pop()
}

// Offers an upload of the module by each of these players. Whether all wait.
fn offer_each<R: Wait>(rt: &R, alloc: Global, hub: &Hub, pass: &mut Pass, players: &[u32]) -> bool
    requires { IsPassOfHub hub.now pass.old }
    ensures { IsPassOfHub hub.now pass.new }
{
    for player in players {
        let Ok(bytes) = Vec::from_slice(alloc, LOOP) else {
            return false;
        };
        let upload = Upload {
            player: *player,
            bytes,
        };
        if hub.offer_upload(rt, pass, upload).is_err() {
            return false;
        }
    }
    true
}

/// Serves so many ticks of a journal, for the first of which an upload of each of these players waits, on a
/// disk of which the calls of these numbers fail. `None` is that the journal could not be recovered.
pub fn serve<R: Threads + Wait + Sync>(
    rt: &R,
    alloc: Global,
    journal: &[u8],
    fails: &[u64],
    players: &[u32],
    ticks: u64,
) -> Result<Option<Served>, Fail> {
    if journal.len() > 1_000_000 {
        return Err("too much".into());
    }
    let bytes = Vec::from_slice(alloc, journal)?;
    let mut disk = MemoryDisk::new(bytes, Vec::from_slice(alloc, fails)?, None);
    let Ok(from) = Journal::recover(alloc, &mut disk) else {
        return Ok(None);
    };
    if from.world.account_list().len() > 64 || ticks > 1_000_000 {
        return Err("too many".into());
    }
    let Ok(opening) = summary_of(alloc, &from.world, from.uploads.as_slice()) else {
        return Err("no memory for a summary".into());
    };
    let (hub, mut ticker, mut passes) = match Hub::new(rt, alloc, 1, opening) {
        Ok(made) => made,
        Err(_) => return Err("no memory for a hub".into()),
    };
    let mut pace = Counted { waits: 0 };
    let served = match next_pass(&hub, &mut passes) {
        Some(mut pass) => {
            let offered = offer_each(rt, alloc, &hub, &mut pass, players);
            let status = serve_ticks(
                rt,
                alloc,
                from,
                &hub,
                &mut ticker,
                &mut disk,
                &mut pace,
                ticks,
                2,
            );
            Some((offered, status, hub.read_status(rt, &mut pass)))
        }
        None => None,
    };
    ticker.end(rt);
    let journal = Vec::from_slice(alloc, disk.bytes())?;
    match served {
        Some((true, status, told)) => Ok(Some(Served {
            status,
            opening,
            told,
            waits: pace.waits,
            journal,
        })),
        _ => Err("no memory for uploads, or no room for them".into()),
    }
}
