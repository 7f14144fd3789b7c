// One turn of a session: a request is heard, and answered.
ghost use Rattle.std.specs.Prelude.{◌≡◌, ℕ, List, [], ◌∷◌, ◌++◌, Option, length, codes};
ghost use Rattle.std.specs.Io.KnownBytes.{Consumes};
ghost use Rattle.world_hub.specs.Hub.{IsPassOfHub};
ghost use Rattle.status_session.specs.Words.{words, IsNumber};
ghost use Rattle.status_session.specs.Asked.{Spells};
ghost use Rattle.status_session.specs.declared.asked.Asked.TheVariants.{Status, Upload as AnUpload};
ghost use Rattle.status_session.specs.inner.Hearing.{IsShort};
ghost use Rattle.status_session.specs.inner.Turned.{Turned, turn_of, TurnCounted, LastSaid, EndsBy};

use crate::answers::{Stop, offer, say, tell_line, tell_status};
use crate::asked::{Asked, Offered, asked_by};
use crate::hearing::{HearStop, Heard, LINE_BYTES, hear_bytes, hear_line};
use crate::session::SessionEnd;
use crate::tokens::{has_token, listed};
use std::alloc::Global;
use std::sync::Wait;
use world_hub::{Hub, Pass, Upload};
use world_link::{Link, write_link};
use world_text::Tokens;

/// Whether a session goes on.
#[derive(Clone, Copy)]
pub enum Turn {
    Goes,
    Over(SessionEnd),
}

// Goes on after a reply that was written.
fn goes(told: Result<(), Stop>) -> Turn
    ensures { result ≡ turn_of told }
{
    match told {
        Ok(()) => Turn::Goes,
        Err(Stop::Fault) => Turn::Over(SessionEnd::LinkFault),
        Err(Stop::Memory) => Turn::Over(SessionEnd::Memory),
    }
}

// Writes the last reply of a session.
fn say_last<L: Link>(link: &mut L, text: &[u8], end: SessionEnd) -> Turn
    requires { EndsBy end }
    ensures said { LastSaid (L.written link.old) (L.written link.new) text.now end result }
    ensures counts { TurnCounted (L.Source.faults link.old) (L.Source.faults link.new)
        (L.Sink.faults link.old) (L.Sink.faults link.new) result }
    ensures left { L.left link.new ≡ L.left link.old }
{
    match write_link(link, text) {
        Ok(()) => Turn::Over(end),
        Err(_) => Turn::Over(SessionEnd::LinkFault),
    }
}

// Answers `STATUS`.
fn turn_status<R: Wait, L: Link>(
    rt: &R,
    alloc: Global,
    link: &mut L,
    hub: &Hub,
    pass: &mut Pass,
    tokens: &Tokens,
    line: &[u8],
) -> Turn
    requires pass { IsPassOfHub hub.now pass.old }
    requires line { IsShort line.now }
    requires asked { Spells (words line.now) Status }
    ensures pass { IsPassOfHub hub.now pass.new }
    ensures turned { (before : Option (List ℕ)) → Consumes before (L.left link.old) (line.now ++ 10 ∷ [])
        → Turned tokens.now before (L.left link.new)
        (L.written link.old) (L.written link.new) pass.old pass.new result }
    ensures counts { TurnCounted (L.Source.faults link.old) (L.Source.faults link.new)
        (L.Sink.faults link.old) (L.Sink.faults link.new) result }
{
    goes(tell_status(rt, alloc, link, hub, pass))
}

// Answers `PLAYER`.
fn turn_player<R: Wait, L: Link>(
    rt: &R,
    alloc: Global,
    link: &mut L,
    hub: &Hub,
    pass: &mut Pass,
    tokens: &Tokens,
    line: &[u8],
    digits: &[u8],
) -> Turn
    requires pass { IsPassOfHub hub.now pass.old }
    requires line { IsShort line.now }
    requires asked { (words line.now ≡ codes "PLAYER" ∷ digits.now ∷ []) × IsNumber digits.now }
    ensures pass { IsPassOfHub hub.now pass.new }
    ensures turned { (before : Option (List ℕ)) → Consumes before (L.left link.old) (line.now ++ 10 ∷ [])
        → Turned tokens.now before (L.left link.new)
        (L.written link.old) (L.written link.new) pass.old pass.new result }
    ensures counts { TurnCounted (L.Source.faults link.old) (L.Source.faults link.new)
        (L.Sink.faults link.old) (L.Sink.faults link.new) result }
{
    match listed(tokens, digits) {
        Some(entry) => goes(tell_line(rt, alloc, link, hub, pass, entry.0)),
        None => goes(say(link, b"refused UnknownPlayer\n")),
    }
}

// Answers `UPLOAD` once its bytes were heard.
fn answer_upload<R: Wait, L: Link>(
    rt: &R,
    link: &mut L,
    hub: &Hub,
    pass: &mut Pass,
    tokens: &Tokens,
    line: &[u8],
    offered: Offered<'_>,
    bytes: Vec<u8>,
) -> Turn
    requires pass { IsPassOfHub hub.now pass.old }
    requires line { IsShort line.now }
    requires asked { Spells (words line.now) (AnUpload offered) }
    requires size { length bytes.items ≡ offered.size }
    ensures pass { IsPassOfHub hub.now pass.new }
    ensures turned { (before : Option (List ℕ))
        → Consumes before (L.left link.old) ((line.now ++ 10 ∷ []) ++ bytes.items)
        → Turned tokens.now before (L.left link.new)
        (L.written link.old) (L.written link.new) pass.old pass.new result }
    ensures counts { TurnCounted (L.Source.faults link.old) (L.Source.faults link.new)
        (L.Sink.faults link.old) (L.Sink.faults link.new) result }
{
    match listed(tokens, offered.player) {
        Some(entry) => {
            if has_token(entry, offered.token) {
                let player = entry.0;
                goes(offer(rt, link, hub, pass, Upload { player, bytes }))
            } else {
                goes(say(link, b"refused WrongToken\n"))
            }
        }
        None => goes(say(link, b"refused UnknownPlayer\n")),
    }
}

// Hears the bytes of an upload, and answers it.
fn turn_upload<R: Wait, L: Link>(
    rt: &R,
    alloc: Global,
    link: &mut L,
    hub: &Hub,
    pass: &mut Pass,
    tokens: &Tokens,
    line: &[u8],
    offered: Offered<'_>,
) -> Turn
    requires pass { IsPassOfHub hub.now pass.old }
    requires line { IsShort line.now }
    requires asked { Spells (words line.now) (AnUpload offered) }
    ensures pass { IsPassOfHub hub.now pass.new }
    ensures turned { (before : Option (List ℕ)) → Consumes before (L.left link.old) (line.now ++ 10 ∷ [])
        → Turned tokens.now before (L.left link.new)
        (L.written link.old) (L.written link.new) pass.old pass.new result }
    ensures counts { TurnCounted (L.Source.faults link.old) (L.Source.faults link.new)
        (L.Sink.faults link.old) (L.Sink.faults link.new) result }
{
    let size = offered.size;
    let bytes = match hear_bytes(alloc, link, size) {
        Ok(bytes) => bytes,
        Err(HearStop::Fault) => return Turn::Over(SessionEnd::LinkFault),
        Err(HearStop::Memory) => return Turn::Over(SessionEnd::Memory),
    };
    if bytes.len() < size as usize {
        return say_last(link, b"bad\n", SessionEnd::BadRequest);
    }
    answer_upload(rt, link, hub, pass, tokens, line, offered, bytes)
}

// Answers a line.
fn turn_line<R: Wait, L: Link>(
    rt: &R,
    alloc: Global,
    link: &mut L,
    hub: &Hub,
    pass: &mut Pass,
    tokens: &Tokens,
    line: &[u8],
) -> Turn
    requires pass { IsPassOfHub hub.now pass.old }
    requires line { IsShort line.now }
    ensures pass { IsPassOfHub hub.now pass.new }
    ensures turned { (before : Option (List ℕ)) → Consumes before (L.left link.old) (line.now ++ 10 ∷ [])
        → Turned tokens.now before (L.left link.new)
        (L.written link.old) (L.written link.new) pass.old pass.new result }
    ensures counts { TurnCounted (L.Source.faults link.old) (L.Source.faults link.new)
        (L.Sink.faults link.old) (L.Sink.faults link.new) result }
{
    match asked_by(line) {
        Some(Asked::Status) => turn_status(rt, alloc, link, hub, pass, tokens, line),
        Some(Asked::Player(digits)) => {
            turn_player(rt, alloc, link, hub, pass, tokens, line, digits)
        }
        Some(Asked::Upload(offered)) => {
            turn_upload(rt, alloc, link, hub, pass, tokens, line, offered)
        }
        Some(Asked::Quit) => say_last(link, b"bye\n", SessionEnd::Quit),
        None => say_last(link, b"bad\n", SessionEnd::BadRequest),
    }
}

/// Hears a request, and answers it.
pub fn serve_one<R: Wait, L: Link>(
    rt: &R,
    alloc: Global,
    link: &mut L,
    hub: &Hub,
    pass: &mut Pass,
    tokens: &Tokens,
) -> Turn
    requires pass { IsPassOfHub hub.now pass.old }
    ensures pass { IsPassOfHub hub.now pass.new }
    ensures turned { Turned tokens.now (L.left link.old) (L.left link.new)
        (L.written link.old) (L.written link.new) pass.old pass.new result }
    ensures counts { TurnCounted (L.Source.faults link.old) (L.Source.faults link.new)
        (L.Sink.faults link.old) (L.Sink.faults link.new) result }
{
    let mut line = [0u8; LINE_BYTES];
    match hear_line(link, &mut line) {
        Ok(Heard::Line(long)) => turn_line(rt, alloc, link, hub, pass, tokens, &line[..long]),
        Ok(Heard::Long) => say_last(link, b"bad\n", SessionEnd::BadRequest),
        Ok(Heard::Cut(_)) => say_last(link, b"bad\n", SessionEnd::BadRequest),
        Ok(Heard::End) => Turn::Over(SessionEnd::Ended),
        Err(_) => Turn::Over(SessionEnd::LinkFault),
    }
}
