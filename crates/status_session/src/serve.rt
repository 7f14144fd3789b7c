// A session over a link.
ghost use Rattle.std.specs.Prelude.{◌≡◌, ◌⊎◌};
ghost use Rattle.world_io.specs.Causes.{Rose};
ghost use Rattle.world_hub.specs.Hub.{IsPassOfHub};
ghost use Rattle.status_session.specs.Served.{Served};
ghost use Rattle.status_session.specs.declared.session.SessionEnd.TheVariants.{LinkFault};

use crate::session::SessionEnd;
use crate::turn::{Turn, serve_one};
use std::alloc::Global;
use std::sync::Wait;
use world_hub::{Hub, Pass};
use world_link::Link;
use world_text::Tokens;

/// The most replies of a session.
pub const REPLIES: u32 = 65_536;

/// Serves a link until its session ends, with the tokens of the world file and a pass of the hub. The pass
/// comes back in any case. It waits for bytes of the link, for its turn at the queue of uploads, and while a
/// summary is published.
pub fn serve_link<R: Wait, L: Link>(
    rt: &R,
    alloc: Global,
    link: &mut L,
    hub: &Hub,
    mut pass: Pass,
    tokens: &Tokens,
) -> (Pass, SessionEnd)
    requires { IsPassOfHub hub.now pass }
    ensures pass { IsPassOfHub hub.now result.0 }
    ensures session { Served tokens.now (L.left link.old) (L.left link.new)
        (L.written link.old) (L.written link.new) pass result.0 result.1 }
    ensures fault { result.1 ≡ LinkFault → Rose (L.Source.faults link.old) (L.Source.faults link.new)
        ⊎ Rose (L.Sink.faults link.old) (L.Sink.faults link.new) }
{
    for _ in 0..REPLIES {
        match serve_one(rt, alloc, link, hub, &mut pass, tokens) {
            Turn::Goes => {}
            Turn::Over(end) => return (pass, end),
        }
    }
    (pass, SessionEnd::Spent)
}
