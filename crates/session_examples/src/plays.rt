// Sessions over links in memory, each with a hub of its own.
ghost use Rattle.std.specs.Prelude.{All, IfSome};
ghost use Rattle.world_hub.specs.Hub.{IsPassOfHub};

use status_session::{SessionEnd, serve_link};
use std::alloc::{AllocError, Global};
use std::sync::Wait;
use std::test::Fail;
use world_hub::{Hub, Pass, PlayerLine, Summary, Upload};
use world_link::{Link, MemoryLink};
use world_text::{Text, Tokens};

/// The players of the tokens. Player 4 has an empty token, and no line.
pub const PLAYERS: [(u32, &str); 4] = [(3, "abc"), (4, ""), (5, "xyz~!"), (u32::MAX, "most")];

/// What `STATUS` is answered in these sessions.
pub const STATUS: &[u8] = b"tick 7 rooms 1 objects 2 energy 1001\n";

/// The line of player 3, with this last result.
pub fn line_of(last: u8) -> PlayerLine {
    PlayerLine {
        player: 3,
        uploads: 0,
        last,
        bucket: 20,
        points: 0,
    }
}

/// What is published in these sessions. Player 9 has a line, and no token.
pub fn first() -> Summary {
    let stranger = PlayerLine {
        player: 9,
        uploads: 1,
        last: 0,
        bucket: 2,
        points: 3,
    };
    let most = PlayerLine {
        player: u32::MAX,
        uploads: u64::MAX,
        last: 10,
        bucket: u32::MAX,
        points: u64::MAX,
    };
    Summary::new(7, 1, 2, 1001, &[line_of(255), stranger, most])
}

/// Tokens of these players.
pub fn tokens_of(alloc: Global, players: &[(u32, &str)]) -> Result<Tokens, AllocError> {
    let mut tokens = Tokens::new(alloc);
    for (player, token) in players {
        tokens.push((*player, Text::of(alloc, token)?))?;
    }
    Ok(tokens)
}

/// What came of a session: how it ended, the link that it was served over, and the uploads that wait.
#[derive(Drop)]
pub struct Played {
    pub end: SessionEnd,
    pub link: MemoryLink,
    pub sent: Vec<Upload>,
}

fn next_pass(hub: &Hub, passes: &mut Vec<Pass>) -> Option<Pass>
    requires { All (IsPassOfHub hub.now) passes.old.items }
    ensures { IfSome result (IsPassOfHub hub.now) }
{
    passes.pop()
}

/// Serves this link with these tokens, where this was published.
pub fn play_with<R: Wait>(
    rt: &R,
    alloc: Global,
    summary: Summary,
    tokens: &Tokens,
    mut link: MemoryLink,
) -> Result<Played, Fail> {
    let (hub, mut ticker, mut passes) = match Hub::new(rt, alloc, 1, summary) {
        Ok(made) => made,
        Err(_) => return Err("no memory for a hub".into()),
    };
    let ended = match next_pass(&hub, &mut passes) {
        Some(pass) => Some(serve_link(rt, alloc, &mut link, &hub, pass, tokens).1),
        None => None,
    };
    let sent = hub.take_uploads(rt, alloc, &mut ticker);
    ticker.end(rt);
    match (ended, sent) {
        (Some(end), Ok(sent)) => Ok(Played { end, link, sent }),
        _ => Err("no memory for uploads".into()),
    }
}

/// Serves a link that gives these bytes, and of which the calls of these numbers fail.
pub fn play<R: Wait>(
    rt: &R,
    alloc: Global,
    asked: &[u8],
    read_fails: &[u64],
    write_fails: &[u64],
) -> Result<Played, Fail> {
    let tokens = tokens_of(alloc, &PLAYERS)?;
    let link = MemoryLink::new(
        alloc,
        Vec::from_slice(alloc, asked)?,
        Vec::from_slice(alloc, read_fails)?,
        Vec::from_slice(alloc, write_fails)?,
    );
    play_with(rt, alloc, first(), &tokens, link)
}

/// Whether a session ended so, with these replies, so many uploads that wait and so many bytes unread, of
/// which 64 are looked for.
pub fn is_so(mut played: Played, end: SessionEnd, said: &[u8], sent: usize, unread: usize) -> bool {
    let mut rest = [0u8; 64];
    let count = played.link.hear(&mut rest);
    played.end == end
        && played.link.written() == said
        && played.sent.len() == sent
        && count == Ok(unread)
}

/// A text that stands so often behind itself.
pub fn repeated(alloc: Global, text: &[u8], times: usize) -> Result<Vec<u8>, AllocError> {
    let mut all = Vec::new(alloc);
    for _ in 0..times {
        all.extend_from_slice(text)?;
    }
    Ok(all)
}
