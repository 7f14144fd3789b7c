// What is said of the last result, and which uploads wait.
use crate::plays::{PLAYERS, is_so, line_of, play, play_with, repeated, tokens_of};
use status_session::SessionEnd;
use std::alloc::Global;
use std::sync::Wait;
use std::test::Fail;
use world_hub::Summary;
use world_link::MemoryLink;

const NAMES: [(u8, &[u8]); 13] = [
    (255, b"none"),
    (0, b"accepted"),
    (1, b"UnknownPlayer"),
    (2, b"WrongToken"),
    (3, b"TooLarge"),
    (4, b"Malformed"),
    (5, b"FloatRefused"),
    (6, b"Invalid"),
    (7, b"UnknownImport"),
    (8, b"ImportKind"),
    (9, b"NoLoop"),
    (10, b"Segment"),
    (11, b"Memory"),
];

// Whether a last result of this number has this name.
fn is_named<R: Wait>(rt: &R, alloc: Global, number: u8, name: &[u8]) -> Result<bool, Fail> {
    let asked = Vec::from_slice(alloc, b"PLAYER 3\n")?;
    let mut said = Vec::from_slice(alloc, b"player 3 uploads 0 last ")?;
    said.extend_from_slice(name)?;
    said.extend_from_slice(b" bucket 20 points 0\n")?;
    let link = MemoryLink::new(alloc, asked, Vec::new(alloc), Vec::new(alloc));
    let summary = Summary::new(0, 0, 0, 0, &[line_of(number)]);
    let played = play_with(rt, alloc, summary, &tokens_of(alloc, &PLAYERS)?, link)?;
    Ok(is_so(played, SessionEnd::Ended, &said, 0, 0))
}

// The uploads of a session come as they were sent.
fn are_sent<R: Wait>(rt: &R, alloc: Global) -> Result<bool, Fail> {
    let played = play(
        rt,
        alloc,
        b"UPLOAD 3 abc 2\nhiUPLOAD 3 abd 2\nnoUPLOAD 5 xyz~! 3\n\n \n",
        &[],
        &[],
    )?;
    match played.sent.as_slice() {
        [one, other] => Ok(
            one.player == 3
                && one.bytes.as_slice() == b"hi".as_slice()
                && other.player == 5
                && other.bytes.as_slice() == b"\n \n".as_slice(),
        ),
        _ => Ok(false),
    }
}

// The 65th upload finds the queue full.
fn is_full<R: Wait>(rt: &R, alloc: Global) -> Result<bool, Fail> {
    let asked = repeated(alloc, b"UPLOAD 3 abc 1\nx", 66)?;
    let mut said = repeated(alloc, b"queued\n", 64)?;
    said.extend_from_slice(b"full\nfull\n")?;
    let played = play(rt, alloc, &asked, &[], &[])?;
    Ok(is_so(played, SessionEnd::Ended, &said, 64, 0))
}

// An upload of so many bytes is queued, and has as many.
fn is_queued<R: Wait>(rt: &R, alloc: Global, line: &[u8], bytes: usize) -> Result<bool, Fail> {
    let mut asked = Vec::from_slice(alloc, line)?;
    asked.extend_from_slice(&repeated(alloc, b"x", bytes)?)?;
    let played = play(rt, alloc, &asked, &[], &[])?;
    let long = match played.sent.as_slice() {
        [one] => one.bytes.len(),
        _ => 0,
    };
    Ok(long == bytes && is_so(played, SessionEnd::Ended, b"queued\n", 1, 0))
}

#[test]
fn results_and_uploads_are_told(rt: HostRuntime) -> Result<(), Fail> {
    let alloc = rt.alloc();
    for (number, name) in NAMES {
        assert!(rt; is_named(&rt, alloc, number, name)?, "{number}");
    }
    assert!(rt; are_sent(&rt, alloc)?);
    assert!(rt; is_full(&rt, alloc)?);
    assert!(rt; is_queued(&rt, alloc, b"UPLOAD 3 abc 4097\n", 4097)?);
    assert!(rt; is_queued(&rt, alloc, b"UPLOAD 3 abc 1048576\n", 1_048_576)?);
    Ok(())
}
