// Sessions that an end of the input, a failing call or the number of replies cuts off.
ghost use Rattle.std.specs.Prelude.{◌<◌, ◌≤◌};

use crate::plays::{STATUS, is_so, play, repeated};
use status_session::{REPLIES, SessionEnd};
use std::alloc::Global;
use std::sync::Wait;
use std::test::Fail;

const REQUESTS: [&[u8]; 4] = [b"STATUS\n", b"PLAYER 3\n", b"UPLOAD 3 abc 2\nhi", b"QUIT\n"];

// Whether the session is over where the input ends behind this part of a request.
fn is_cut<R: Wait>(rt: &R, alloc: Global, part: &[u8]) -> Result<bool, Fail> {
    let played = play(rt, alloc, part, &[], &[])?;
    Ok(if part.is_empty() {
        is_so(played, SessionEnd::Ended, b"", 0, 0)
    } else {
        is_so(played, SessionEnd::BadRequest, b"bad\n", 0, 0)
    })
}

#[test]
fn the_input_ends_in_a_request(rt: HostRuntime) -> Result<(), Fail> {
    let alloc = rt.alloc();
    for request in REQUESTS {
        for end in 0..request.len() {
            assert!(rt; is_cut(&rt, alloc, &request[..end])?, "{request:?} {end}");
        }
    }
    Ok(())
}

// The requests in a row, which are read by 37 calls: one for each byte of a line, and one for an upload.
const SCRIPT: &[u8] = b"STATUS\nPLAYER 3\nUPLOAD 3 abc 2\nhiQUIT\n";

const SAID: [&[u8]; 5] = [
    b"",
    STATUS,
    b"tick 7 rooms 1 objects 2 energy 1001\nplayer 3 uploads 0 last none bucket 20 points 0\n",
    b"tick 7 rooms 1 objects 2 energy 1001\nplayer 3 uploads 0 last none bucket 20 points 0\n\
    queued\n",
    b"tick 7 rooms 1 objects 2 energy 1001\nplayer 3 uploads 0 last none bucket 20 points 0\n\
    queued\nbye\n",
];

// How many of the requests are heard by so many calls.
fn heard_by(calls: u64) -> usize
    ensures { result ≤ 4 }
{
    if calls < 7 {
        0
    } else if calls < 16 {
        1
    } else if calls < 32 {
        2
    } else if calls < 37 {
        3
    } else {
        4
    }
}

// Whether a read of this number that fails ends the session, after the requests that were heard before it.
fn is_unread<R: Wait>(rt: &R, alloc: Global, call: u64) -> Result<bool, Fail> {
    let played = play(rt, alloc, SCRIPT, &[call], &[])?;
    let heard = heard_by(call);
    let sent = if heard < 3 { 0 } else { 1 };
    let end = if heard < 4 {
        SessionEnd::LinkFault
    } else {
        SessionEnd::Quit
    };
    Ok(played.end == end && played.link.written() == SAID[heard] && played.sent.len() == sent)
}

// Whether a write of this number that fails ends the session, where its request was done.
fn is_unwritten<R: Wait>(rt: &R, alloc: Global, call: usize) -> Result<bool, Fail>
    requires { call < 5 }
{
    let played = play(rt, alloc, SCRIPT, &[], &[call as u64])?;
    let sent = if call < 2 { 0 } else { 1 };
    let end = if call < 4 {
        SessionEnd::LinkFault
    } else {
        SessionEnd::Quit
    };
    Ok(played.end == end && played.link.written() == SAID[call] && played.sent.len() == sent)
}

#[test]
fn a_call_of_the_link_fails(rt: HostRuntime) -> Result<(), Fail> {
    let alloc = rt.alloc();
    for call in 0..=37 {
        assert!(rt; is_unread(&rt, alloc, call)?, "{call}");
    }
    for call in 0..5 {
        assert!(rt; is_unwritten(&rt, alloc, call)?, "{call}");
    }
    Ok(())
}

// Whether so many requests of one kind and `QUIT` end so, with as many replies and this last one, and so many
// bytes unread.
fn is_over<R: Wait>(
    rt: &R,
    alloc: Global,
    requests: usize,
    end: SessionEnd,
    last: &[u8],
    unread: usize,
) -> Result<bool, Fail> {
    let mut asked = repeated(alloc, b"PLAYER 0\n", requests)?;
    asked.extend_from_slice(b"QUIT\n")?;
    let mut said = repeated(alloc, b"refused UnknownPlayer\n", requests)?;
    said.extend_from_slice(last)?;
    Ok(is_so(play(rt, alloc, &asked, &[], &[])?, end, &said, 0, unread))
}

#[test]
fn replies_are_counted(rt: HostRuntime) -> Result<(), Fail> {
    let alloc = rt.alloc();
    assert_eq!(rt; REPLIES, 65536);
    assert!(rt; is_over(&rt, alloc, 65535, SessionEnd::Quit, b"bye\n", 0)?);
    assert!(rt; is_over(&rt, alloc, 65536, SessionEnd::Spent, b"", 5)?);
    Ok(())
}
