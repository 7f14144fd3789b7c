// Requests in each of their forms, and what is no request.
use crate::plays::{STATUS, first, is_so, play, play_with, repeated, tokens_of};
use status_session::SessionEnd;
use std::alloc::Global;
use std::sync::Wait;
use std::test::Fail;
use world_link::MemoryLink;

// What was asked, the replies, how many uploads wait then, how many bytes are unread, and the end.
type Row = (&'static [u8], &'static [u8], usize, usize, SessionEnd);

const REQUESTS: [Row; 21] = [
    (b"", b"", 0, 0, SessionEnd::Ended),
    (b"STATUS\n", STATUS, 0, 0, SessionEnd::Ended),
    (
        b"PLAYER 3\n",
        b"player 3 uploads 0 last none bucket 20 points 0\n",
        0,
        0,
        SessionEnd::Ended,
    ),
    (
        b"PLAYER 4294967295\n",
        b"player 4294967295 uploads 18446744073709551615 last Segment \
        bucket 4294967295 points 18446744073709551615\n",
        0,
        0,
        SessionEnd::Ended,
    ),
    (
        b"PLAYER 4\n",
        b"refused UnknownPlayer\n",
        0,
        0,
        SessionEnd::Ended,
    ),
    (
        b"PLAYER 9\n",
        b"refused UnknownPlayer\n",
        0,
        0,
        SessionEnd::Ended,
    ),
    (
        b"PLAYER 0\n",
        b"refused UnknownPlayer\n",
        0,
        0,
        SessionEnd::Ended,
    ),
    (
        b"PLAYER 4294967299\n",
        b"refused UnknownPlayer\n",
        0,
        0,
        SessionEnd::Ended,
    ),
    (b"UPLOAD 3 abc 2\nhi", b"queued\n", 1, 0, SessionEnd::Ended),
    (b"UPLOAD 3 abc 0\n", b"queued\n", 1, 0, SessionEnd::Ended),
    (
        b"UPLOAD 3 ab 1\nx",
        b"refused WrongToken\n",
        0,
        0,
        SessionEnd::Ended,
    ),
    (
        b"UPLOAD 3 abcd 1\nx",
        b"refused WrongToken\n",
        0,
        0,
        SessionEnd::Ended,
    ),
    (
        b"UPLOAD 3 abC 1\nx",
        b"refused WrongToken\n",
        0,
        0,
        SessionEnd::Ended,
    ),
    (
        b"UPLOAD 4 abc 1\nx",
        b"refused WrongToken\n",
        0,
        0,
        SessionEnd::Ended,
    ),
    (
        b"UPLOAD 9 abc 1\nx",
        b"refused UnknownPlayer\n",
        0,
        0,
        SessionEnd::Ended,
    ),
    (
        b"UPLOAD 4294967299 abc 1\nx",
        b"refused UnknownPlayer\n",
        0,
        0,
        SessionEnd::Ended,
    ),
    (b"QUIT\n", b"bye\n", 0, 0, SessionEnd::Quit),
    (b"QUIT\nSTATUS\n", b"bye\n", 0, 7, SessionEnd::Quit),
    (
        b"STATUS\nPLAYER 4\n",
        b"tick 7 rooms 1 objects 2 energy 1001\nrefused UnknownPlayer\n",
        0,
        0,
        SessionEnd::Ended,
    ),
    (
        b"UPLOAD 3 abc 5\nQUIT\nQUIT\nQUIT\n",
        b"queued\nbye\n",
        1,
        5,
        SessionEnd::Quit,
    ),
    (
        b"UPLOAD 3 abc 4\nQUIT\nQUIT\n",
        b"queued\nbad\n",
        1,
        5,
        SessionEnd::BadRequest,
    ),
];

// What is no request, and how many bytes are unread then.
const BAD: [(&[u8], usize); 37] = [
    (b"\n", 0),
    (b"\nQUIT\n", 5),
    (b"HELLO\n", 0),
    (b"status\n", 0),
    (b"STATUS \n", 0),
    (b" STATUS\n", 0),
    (b"STATUS\r\n", 0),
    (b"STATUS\0\n", 0),
    (b"STATUS 1\n", 0),
    (b"QUIT 1\n", 0),
    (b"QUIT\r\nQUIT\n", 5),
    (b"PLAYER\n", 0),
    (b"PLAYER \n", 0),
    (b"PLAYER 01\n", 0),
    (b"PLAYER 00\n", 0),
    (b"PLAYER +3\n", 0),
    (b"PLAYER 3a\n", 0),
    (b"PLAYER 3:\n", 0),
    (b"PLAYER 3/\n", 0),
    (b"PLAYER 3 \n", 0),
    (b"PLAYER  3\n", 0),
    (b"PLAYER 3 4\n", 0),
    (b"PLAYER 3\r\n", 0),
    (b"PLAYER\t3\n", 0),
    (b"UPLOAD 3 abc\n", 0),
    (b"UPLOAD 3 abc \n", 0),
    (b"UPLOAD 1 abc 1048577\n", 0),
    (b"UPLOAD 3 abc 1048577\nQUIT\n", 5),
    (b"UPLOAD 3 abc 18446744073709551617\n", 0),
    (b"UPLOAD 3 abc 01\nx", 1),
    (b"UPLOAD 03 abc 1\nx", 1),
    (b"UPLOAD 3  1\nx", 1),
    (b"UPLOAD 3 a\x7fc 1\nx", 1),
    (b"UPLOAD 3 a\tc 1\nx", 1),
    (b"UPLOAD 3 abc 1 \nx", 1),
    (b"UPLOAD 3 a b 1\nx", 1),
    (b"UPLOAD 1 abc 5\nfour", 0),
];

fn is_row<R: Wait>(rt: &R, alloc: Global, row: Row) -> Result<bool, Fail> {
    let (asked, said, sent, unread, end) = row;
    Ok(is_so(play(rt, alloc, asked, &[], &[])?, end, said, sent, unread))
}

fn is_bad<R: Wait>(rt: &R, alloc: Global, asked: &[u8], unread: usize) -> Result<bool, Fail> {
    let played = play(rt, alloc, asked, &[], &[])?;
    Ok(is_so(played, SessionEnd::BadRequest, b"bad\n", 0, unread))
}

#[test]
fn requests_are_answered(rt: HostRuntime) -> Result<(), Fail> {
    let alloc = rt.alloc();
    for row in REQUESTS {
        assert!(rt; is_row(&rt, alloc, row)?, "{:?}", row.0);
    }
    for (asked, unread) in BAD {
        assert!(rt; is_bad(&rt, alloc, asked, unread)?, "{asked:?}");
    }
    Ok(())
}

// `PLAYER` and a number of so many digits.
fn long_line(alloc: Global, digits: usize) -> Result<Vec<u8>, Fail> {
    let mut line = Vec::from_slice(alloc, b"PLAYER ")?;
    line.extend_from_slice(&repeated(alloc, b"1", digits)?)?;
    line.push(b'\n')?;
    Ok(line)
}

// Whether a player whose token is this byte uploads with it.
fn is_token<R: Wait>(rt: &R, alloc: Global, byte: u8) -> Result<bool, Fail> {
    let letter = [byte];
    let Ok(text) = str::from_utf8(&letter) else {
        return Ok(false);
    };
    let tokens = tokens_of(alloc, &[(3, text)])?;
    let mut asked = Vec::from_slice(alloc, b"UPLOAD 3 ")?;
    asked.push(byte)?;
    asked.extend_from_slice(b" 0\n")?;
    let link = MemoryLink::new(alloc, asked, Vec::new(alloc), Vec::new(alloc));
    let played = play_with(rt, alloc, first(), &tokens, link)?;
    Ok(is_so(played, SessionEnd::Ended, b"queued\n", 1, 0))
}

#[test]
fn lines_and_tokens_have_bounds(rt: HostRuntime) -> Result<(), Fail> {
    let alloc = rt.alloc();
    let longest = long_line(alloc, 192)?;
    assert_eq!(rt; longest.len(), 200);
    let played = play(&rt, alloc, &longest, &[], &[])?;
    assert!(rt; is_so(played, SessionEnd::Ended, b"refused UnknownPlayer\n", 0, 0));
    assert!(rt; is_bad(&rt, alloc, &long_line(alloc, 193)?, 1)?);
    assert!(rt; is_bad(&rt, alloc, &repeated(alloc, b"x", 264)?, 64)?);
    for byte in b'!'..=b'~' {
        assert!(rt; is_token(&rt, alloc, byte)?, "{byte}");
    }
    Ok(())
}
