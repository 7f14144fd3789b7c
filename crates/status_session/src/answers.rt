// The answers to requests that let the session go on.
ghost use Rattle.std.specs.Prelude.{◌≡◌};
ghost use Rattle.world_hub.specs.Hub.{IsPassOfHub};
ghost use Rattle.status_session.specs.inner.Told.{SaidBy, Told, StatusTold, LineTold, UploadTold};

use crate::replies::{line_text, status_text};
use std::alloc::Global;
use std::sync::Wait;
use world_hub::{Hub, Pass, Upload};
use world_link::{Link, write_link};

/// Why a request was not answered.
#[derive(Clone, Copy, Debug, PartialEq, Eq)]
pub enum Stop {
    Fault,
    Memory,
}

/// Writes a reply.
pub fn say<L: Link>(link: &mut L, text: &[u8]) -> Result<(), Stop>
    ensures said { SaidBy (L.written link.old) (L.written link.new) text.now result }
    ensures counts { Told (L.Sink.faults link.old) (L.Sink.faults link.new) result }
    ensures left { L.left link.new ≡ L.left link.old }
    ensures count { L.Source.faults link.new ≡ L.Source.faults link.old }
{
    match write_link(link, text) {
        Ok(()) => Ok(()),
        Err(_) => Err(Stop::Fault),
    }
}

/// Answers `STATUS`.
pub fn tell_status<R: Wait, L: Link>(
    rt: &R,
    alloc: Global,
    link: &mut L,
    hub: &Hub,
    pass: &mut Pass,
) -> Result<(), Stop>
    requires { IsPassOfHub hub.now pass.old }
    ensures pass { IsPassOfHub hub.now pass.new }
    ensures told { StatusTold (L.written link.old) (L.written link.new) pass.old pass.new result }
    ensures counts { Told (L.Sink.faults link.old) (L.Sink.faults link.new) result }
    ensures left { L.left link.new ≡ L.left link.old }
    ensures count { L.Source.faults link.new ≡ L.Source.faults link.old }
{
    let summary = hub.read_status(rt, pass);
    match status_text(alloc, &summary) {
        Ok(text) => say(link, &text),
        Err(_) => Err(Stop::Memory),
    }
}

/// Answers `PLAYER` for a player of the tokens.
pub fn tell_line<R: Wait, L: Link>(
    rt: &R,
    alloc: Global,
    link: &mut L,
    hub: &Hub,
    pass: &mut Pass,
    player: u32,
) -> Result<(), Stop>
    requires { IsPassOfHub hub.now pass.old }
    ensures pass { IsPassOfHub hub.now pass.new }
    ensures told { LineTold player (L.written link.old) (L.written link.new) pass.old pass.new result }
    ensures counts { Told (L.Sink.faults link.old) (L.Sink.faults link.new) result }
    ensures left { L.left link.new ≡ L.left link.old }
    ensures count { L.Source.faults link.new ≡ L.Source.faults link.old }
{
    let summary = hub.read_status(rt, pass);
    match summary.line(player) {
        Some(line) => match line_text(alloc, &line) {
            Ok(text) => say(link, &text),
            Err(_) => Err(Stop::Memory),
        },
        None => say(link, b"refused UnknownPlayer\n"),
    }
}

/// Offers an upload whose token was right, and answers it.
pub fn offer<R: Wait, L: Link>(
    rt: &R,
    link: &mut L,
    hub: &Hub,
    pass: &mut Pass,
    upload: Upload,
) -> Result<(), Stop>
    requires { IsPassOfHub hub.now pass.old }
    ensures pass { IsPassOfHub hub.now pass.new }
    ensures told { UploadTold upload (L.written link.old) (L.written link.new) pass.old pass.new result }
    ensures counts { Told (L.Sink.faults link.old) (L.Sink.faults link.new) result }
    ensures left { L.left link.new ≡ L.left link.old }
    ensures count { L.Source.faults link.new ≡ L.Source.faults link.old }
{
    match hub.offer_upload(rt, pass, upload) {
        Ok(()) => say(link, b"queued\n"),
        Err(_back) => say(link, b"full\n"),
    }
}
