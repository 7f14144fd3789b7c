// A link over a socket.
ghost use Rattle.std.specs.Prelude.{◌≡◌, ◌<◌, ◌≤◌, length, None, IfSome, IfOk, OnErr};
ghost use Rattle.std.specs.Io.{ReadsAtMost, WritesAtMost};
ghost use Rattle.world_io.specs.Causes.{HasCause, one_more};

use crate::count::FaultCount;
use crate::life::Life;
use std::io;
use std::io::{ErrorKind, Read, Write};
use std::net::OpenStream;
use std::time::{Clock, Duration};
use world_io::{Failed, Sink, Source};
use world_link::Link;

/// A link over a socket, as a `TcpStream`, which tells nothing of its bytes. A read or a write fails where it
/// waits longer than the link's patience, where the peer has reset, or where the link's life is over before
/// it begins: so whatever the peer does, no call ends later than one patience after the life. Each call that
/// fails is counted, of the reads and of the writes apart; the counts stop at `2^64 - 1`.
#[derive(Drop)]
pub struct SocketLink<R, S> {
    stream: S,
    life: Life<R>,
    read_faults: FaultCount,
    write_faults: FaultCount,
}

impl<R: Clock + Copy, S: OpenStream + Drop> SocketLink<R, S> {
    /// A link over this stream, whose life begins now. What is written goes out at once. A patience of 0 is
    /// one of a nanosecond, and the system may round a patience up to what its clock knows; at a life of 0
    /// each call fails. An error is the clock's or the socket's, and the stream is dropped.
    pub fn over(clock: R, stream: S, patience: Duration, life: Duration) -> io::Result<Self>
        ensures life { IfOk result (λ l. l.life.span ≡ life) }
        ensures reads { IfOk result (λ l. l.read_faults.count ≡ 0) }
        ensures writes { IfOk result (λ l. l.write_faults.count ≡ 0) }
    {
        let life = Life::begin(clock, life)?;
        let patience = patience.max(Duration::from_nanos(1));
        stream.set_read_timeout(Some(patience))?;
        stream.set_write_timeout(Some(patience))?;
        stream.set_nodelay(true)?;
        Ok(SocketLink {
            stream,
            life,
            read_faults: FaultCount::ZERO,
            write_faults: FaultCount::ZERO,
        })
    }
}

impl<R, S> SocketLink<R, S> {
    /// How many reads failed.
    pub fn read_faults(&self) -> u64
        ensures { result ≡ self.now.read_faults.count }
    {
        self.read_faults.count
    }

    /// How many writes failed.
    pub fn write_faults(&self) -> u64
        ensures { result ≡ self.now.write_faults.count }
    {
        self.write_faults.count
    }
}

impl<R: Clock + Copy, S: Read> SocketLink<R, S> {
    // Reads the next bytes into the front of the buffer, and counts where that fails.
    fn receive(&mut self, buf: &mut [u8]) -> Result<usize, Failed>
        ensures bound { ReadsAtMost result buf.new }
        ensures cause { HasCause self.old.read_faults.count self.new.read_faults.count result }
        ensures exact { OnErr result (self.new.read_faults.count ≡ one_more self.old.read_faults.count) }
        ensures other { self.new.write_faults.count ≡ self.old.write_faults.count }
    {
        match read_some(&self.life, &mut self.stream, buf) {
            Some(count) => Ok(count),
            None => Err(self.read_faults.raise()),
        }
    }
}

impl<R: Clock + Copy, S: Write> SocketLink<R, S> {
    // Writes the front of the piece, and counts where that fails.
    fn send(&mut self, piece: &[u8]) -> Result<usize, Failed>
        ensures bound { WritesAtMost result piece.now }
        ensures some { IfOk result (λ n. 0 < n) }
        ensures cause { HasCause self.old.write_faults.count self.new.write_faults.count result }
        ensures exact { OnErr result (self.new.write_faults.count ≡ one_more self.old.write_faults.count) }
        ensures other { self.new.read_faults.count ≡ self.old.read_faults.count }
    {
        match write_some(&self.life, &mut self.stream, piece) {
            Some(count) => Ok(count),
            None => Err(self.write_faults.raise()),
        }
    }
}

impl<R: Clock + Copy, S: Read> Source for SocketLink<R, S> {
    ghost left = { λ _. None };

    ghost faults = { λ l. l.read_faults.count };

    fn read(&mut self, buf: &mut [u8]) -> Result<usize, Failed> {
        self.receive(buf)
    }
}

impl<R: Clock + Copy, S: Write> Sink for SocketLink<R, S> {
    ghost written = { λ _. None };

    ghost faults = { λ l. l.write_faults.count };

    fn write(&mut self, piece: &[u8]) -> Result<usize, Failed> {
        self.send(piece)
    }
}

impl<R: Clock + Copy, S: Read + Write> Link for SocketLink<R, S> {
    fn hear(&mut self, buf: &mut [u8]) -> Result<usize, Failed> {
        self.receive(buf)
    }

    fn tell(&mut self, piece: &[u8]) -> Result<usize, Failed> {
        self.send(piece)
    }
}

// Reads the next bytes while the life lasts, again where a signal cuts in. `None` is a failure.
fn read_some<R: Clock + Copy, S: Read>(
    life: &Life<R>,
    stream: &mut S,
    buf: &mut [u8],
) -> Option<usize>
    ensures { IfSome result (λ n. n ≤ length buf.new) }
{
    for _ in 0..u64::MAX {
        if life.is_over() {
            return None;
        }
        match stream.read(buf) {
            Ok(count) => return Some(count),
            Err(error) if error.kind() == ErrorKind::Interrupted => {}
            Err(_) => return None,
        }
    }
    None
}

// Writes the front of the piece while the life lasts, again where a signal cuts in. `None` is a failure, or a
// stream that takes nothing.
fn write_some<R: Clock + Copy, S: Write>(
    life: &Life<R>,
    stream: &mut S,
    piece: &[u8],
) -> Option<usize>
    ensures some { IfSome result (λ n. 0 < n) }
    ensures bound { IfSome result (λ n. n ≤ length piece.now) }
{
    for _ in 0..u64::MAX {
        if life.is_over() {
            return None;
        }
        match stream.write(piece) {
            Ok(0) => return None,
            Ok(count) => return Some(count),
            Err(error) if error.kind() == ErrorKind::Interrupted => {}
            Err(_) => return None,
        }
    }
    None
}
