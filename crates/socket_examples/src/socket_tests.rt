// Doors and links over the system's loopback.
use socket_links::{SleepPace, SocketDoor};
use std::io::{Read, Write};
use std::net::{Ipv4Addr, Net, Shutdown, TcpStream};
use std::test::Fail;
use std::thread::Threads;
use std::time::{Clock, Duration, Instant};
use std::{io, thread};
use world_io::Failed;
use world_link::{Door, Link, Pace, write_link};

// Longer than a test takes, in milliseconds.
const LONG: u64 = 30_000;

// A door at this port, or at a free one for 0, with a patience and a life in milliseconds.
fn open(rt: HostRuntime, port: u16, patience: u64, life: u64) -> SocketDoor<HostRuntime> {
    let patience = Duration::from_millis(patience);
    SocketDoor::open(rt, port, patience, Duration::from_millis(life))
}

// A connection to a port of this machine.
fn connect<R: Net>(net: &R, port: u16) -> io::Result<R::Stream> {
    TcpStream::connect(net, (Ipv4Addr::LOCALHOST, port))
}

// Takes a link at the door and gives back what it hears, to its end. How many bytes these were.
fn echo<D: Door>(door: &D) -> Option<usize> {
    let mut link = door.next()?;
    let mut heard = 0usize;
    for _ in 0..u64::MAX {
        let mut buf = [0u8; 16];
        let count = link.hear(&mut buf).ok()?;
        if count == 0 {
            return Some(heard);
        }
        write_link(&mut link, &buf[..count]).ok()?;
        heard = heard.saturating_add(count);
    }
    None
}

// Two threads at one door.
fn echo_twice<R: Threads, D: Door + Sync>(rt: &R, door: &D) -> (Option<usize>, Option<usize>)
where
    D::Line: Send,
{
    thread::join(rt, || echo(door), || echo(door))
}

// Connects to the port, says the text, and reads an answer that fills the buffer.
fn say<R: Net<Stream = TcpStream>>(
    net: &R,
    port: u16,
    text: &[u8],
    answer: &mut [u8],
) -> io::Result<()> {
    let mut stream = connect(net, port)?;
    stream.write_all(text)?;
    stream.read_exact(answer)?;
    stream.shutdown(Shutdown::Write)
}

// Says a line to the port on each of two connections, one after the other.
fn say_twice<R: Net<Stream = TcpStream>>(
    net: &R,
    port: u16,
    answer: &mut [u8; 21],
) -> io::Result<()> {
    say(net, port, b"what is the tick now\n", answer)?;
    answer.fill(0);
    say(net, port, b"what is the next one\n", answer)
}

#[test]
fn a_line_is_heard_and_told_in_other_threads(rt: HostRuntime) -> Result<(), Fail> {
    let door = open(rt, 0, LONG, LONG);
    assert!(rt; door.is_open());
    let port = door.port().ok_or("no port")?;
    let mut answer = [0u8; 21];
    let (heard, said) = thread::join(
        &rt,
        || echo_twice(&rt, &door),
        || say_twice(&rt, port, &mut answer),
    );
    said?;
    assert_eq!(rt; heard, (Some(21), Some(21)));
    assert_eq!(rt; answer.as_slice(), b"what is the next one\n".as_slice());
    Ok(())
}

// Tells the link a text again and again, until that fails, a million times at most. Whether it failed.
fn tell_until_it_fails<L: Link>(link: &mut L) -> bool {
    let text = [7u8; 64];
    for _ in 0..1_000_000 {
        if link.tell(&text).is_err() {
            return true;
        }
    }
    false
}

#[test]
fn a_call_fails_past_the_patience(rt: HostRuntime) -> Result<(), Fail> {
    let door = open(rt, 0, 50, LONG);
    let client = connect(&rt, door.port().ok_or("no port")?)?;
    let mut link = door.next().ok_or("no link")?;
    let mut buf = [0u8; 16];
    let begun = Instant::now(&rt)?;
    assert_eq!(rt; link.hear(&mut buf), Err(Failed));
    assert!(rt; begun.elapsed(&rt)? >= Duration::from_millis(40));
    assert_eq!(rt; (link.read_faults(), link.write_faults()), (1, 0));

    // The client doesn't read either.
    assert!(rt; tell_until_it_fails(&mut link));
    assert_eq!(rt; (link.read_faults(), link.write_faults()), (1, 1));
    drop(client);
    Ok(())
}

// Sends a byte each 20 ms until that fails, 500 at most. How many it sent.
fn drip<R: Net + Clock>(rt: &R, port: u16) -> io::Result<usize> {
    let mut stream = connect(rt, port)?;
    for sent in 0..500usize {
        if stream.write(b".").is_err() {
            return Ok(sent);
        }
        thread::sleep(rt, Duration::from_millis(20));
    }
    Ok(500)
}

// Hears a link of the door until a call fails. How long that took, where one did and is counted.
fn time_to_failure(rt: HostRuntime, door: &SocketDoor<HostRuntime>) -> Option<Duration> {
    let begun = Instant::now(&rt).ok()?;
    let mut link = door.next()?;
    let mut buf = [0u8; 16];
    for _ in 0..1000 {
        match link.hear(&mut buf) {
            Ok(0) => return None,
            Ok(_) => {}
            Err(Failed) if link.read_faults() == 1 => return begun.elapsed(&rt).ok(),
            Err(Failed) => return None,
        }
    }
    None
}

#[test]
fn a_life_ends_while_the_peer_sends(rt: HostRuntime) -> Result<(), Fail> {
    let door = open(rt, 0, LONG, 100);
    let port = door.port().ok_or("no port")?;
    let (lived, sent) = thread::join(&rt, || time_to_failure(rt, &door), || drip(&rt, port));
    assert!(rt; sent? < 500);
    assert!(rt; lived.ok_or("no failure")? >= Duration::from_millis(100));
    Ok(())
}

#[test]
fn a_peer_that_is_gone_ends_no_process(rt: HostRuntime) -> Result<(), Fail> {
    let door = open(rt, 0, LONG, LONG);
    let port = door.port().ok_or("no port")?;
    let mut buf = [0u8; 16];

    // It closes: what it says ends, and a write fails.
    drop(connect(&rt, port)?);
    let mut link = door.next().ok_or("no link")?;
    assert_eq!(rt; link.hear(&mut buf), Ok(0));
    assert!(rt; tell_until_it_fails(&mut link));
    assert!(rt; tell_until_it_fails(&mut link));
    assert_eq!(rt; (link.read_faults(), link.write_faults()), (0, 2));

    // It resets, since it has not read what it was told.
    let client = connect(&rt, port)?;
    let mut link = door.next().ok_or("no link")?;
    assert_eq!(rt; link.tell(b"unread"), Ok(6));
    assert_eq!(rt; client.peek(&mut buf)?, 6);
    drop(client);
    assert_eq!(rt; link.hear(&mut buf), Err(Failed));
    assert_eq!(rt; (link.read_faults(), link.write_faults()), (1, 0));
    Ok(())
}

#[test]
fn a_port_is_had_by_one_door_and_then_again(rt: HostRuntime) -> Result<(), Fail> {
    let first = open(rt, 0, LONG, LONG);
    let port = first.port().ok_or("no port")?;
    let second = open(rt, port, LONG, LONG);
    assert!(rt; !second.is_open());
    assert_eq!(rt; second.port(), None);
    assert!(rt; second.next().is_none());

    // The link is closed before the client, so that the system keeps its end at the port for a while.
    let client = connect(&rt, port)?;
    drop(first.next());
    drop(client);
    drop(first);
    assert_eq!(rt; open(rt, port, LONG, LONG).port(), Some(port));
    Ok(())
}

#[test]
fn a_pace_takes_its_time(rt: HostRuntime) -> Result<(), Fail> {
    let begun = Instant::now(&rt)?;
    SleepPace::new(rt, 20).wait();
    assert!(rt; begun.elapsed(&rt)? >= Duration::from_millis(20));
    Ok(())
}
