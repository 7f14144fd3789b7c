// The session loops, which serve the links of a door.
ghost use Rattle.std.specs.Prelude.{All, IfSome};
ghost use Rattle.shared_serve.specs.Lanes.{IsLane};

use claim_board::{Board, Seat};
use status_session::serve_link;
use std::alloc::Global;
use std::sync::Wait;
use std::thread::{Threads, join};
use world_hub::{Hub, Pass};
use world_link::Door;
use world_text::Tokens;

/// How many links are served at once.
pub(crate) const LOOPS: u32 = 4;

/// What one session loop has for itself.
#[derive(Drop)]
pub(crate) struct Lane {
    pub seat: Seat,
    pub pass: Pass,
}

/// Serves the links of a door by four loops, each of which takes the next link when the one before is over.
/// It ends when as many links as the board has numbers were served, or the door is closed.
pub(crate) fn serve_links<R: Threads + Wait + Sync, O: Door + Sync>(
    rt: &R,
    alloc: Global,
    door: &O,
    board: &Board,
    hub: &Hub,
    tokens: &Tokens,
    lanes: &mut Vec<Lane>,
)
where
    O::Line: Send,
    requires { All (IsLane board.now hub.now) lanes.old.items }
{
    let one = take_lane(board, hub, lanes);
    let two = take_lane(board, hub, lanes);
    let three = take_lane(board, hub, lanes);
    let four = take_lane(board, hub, lanes);
    join(
        rt,
        move ||
            requires one { IfSome one (IsLane board.now hub.now) }
            requires two { IfSome two (IsLane board.now hub.now) }
        { serve_two(rt, alloc, door, board, hub, tokens, one, two) },
        move ||
            requires three { IfSome three (IsLane board.now hub.now) }
            requires four { IfSome four (IsLane board.now hub.now) }
        { serve_two(rt, alloc, door, board, hub, tokens, three, four) },
    );
}

// The last of the lanes of this board and this hub.
fn take_lane(board: &Board, hub: &Hub, lanes: &mut Vec<Lane>) -> Option<Lane>
    requires { All (IsLane board.now hub.now) lanes.old.items }
    ensures lane { IfSome result (IsLane board.now hub.now) }
    ensures others { All (IsLane board.now hub.now) lanes.new.items }
{
    match lanes.pop() {
        Some(lane) => Some(lane),
        None => None,
    }
}

// Serves links by two loops.
fn serve_two<R: Threads + Wait + Sync, O: Door + Sync>(
    rt: &R,
    alloc: Global,
    door: &O,
    board: &Board,
    hub: &Hub,
    tokens: &Tokens,
    one: Option<Lane>,
    other: Option<Lane>,
)
where
    O::Line: Send,
    requires one { IfSome one (IsLane board.now hub.now) }
    requires other { IfSome other (IsLane board.now hub.now) }
{
    join(
        rt,
        move || serve_lane(rt, alloc, door, board, hub, tokens, one),
        move || serve_lane(rt, alloc, door, board, hub, tokens, other),
    );
}

// Serves one link after the other.
fn serve_lane<R: Wait, O: Door>(
    rt: &R,
    alloc: Global,
    door: &O,
    board: &Board,
    hub: &Hub,
    tokens: &Tokens,
    lane: Option<Lane>,
)
    requires { IfSome lane (IsLane board.now hub.now) }
{
    let Some(Lane { mut seat, mut pass }) = lane else {
        return;
    };
    for _ in rt.forever() {
        let Some(_number) = board.draw(&mut seat) else {
            return;
        };
        let Some(mut link) = door.next() else {
            return;
        };
        let (back, _end) = serve_link(rt, alloc, &mut link, hub, pass, tokens);
        pass = back;
    }
}
