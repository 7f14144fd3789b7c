// A door at a port of this machine.
ghost use Rattle.std.specs.Prelude.{◌≡◌, ◌↔◌, IsTrue, IsSome, IsNone, IfSome};

use crate::link::SocketLink;
use std::net::{Ipv4Addr, Net, OpenListener, SocketAddr, SocketAddrV4};
use std::thread;
use std::time::{Clock, Duration};
use world_link::Door;

// How long is waited after an `accept` that failed, in milliseconds.
const PAUSE: u64 = 10;

/// A door at a port of 127.0.0.1, which only programs of this machine reach. Where the port can't be had, as
/// it is taken or not allowed, it is closed for good. Its port is let go when it is dropped, and when the
/// process ends, however it ends; it can be had again at once.
#[derive(Drop)]
pub struct SocketDoor<R: Net> {
    rt: R,
    entry: Option<Entry<R::Listener>>,
    patience: Duration,
    life: Duration,
}

// What a door that is open listens with, and where.
#[derive(Drop)]
struct Entry<L> {
    listener: L,
    port: u16,
}

impl<L: OpenListener> Entry<L> {
    // An entry at the address, or `None` where it can't be had.
    fn at<R: Net<Listener = L>>(net: &R, address: SocketAddr) -> Option<Self> {
        let listener = net.bind(address).ok()?;
        let port = listener.local_addr().ok()?.port();
        Some(Entry { listener, port })
    }
}

impl<R: Net> SocketDoor<R> {
    /// A door at this port, or at a free one of the system's choice for 0. A read or a write of its links
    /// fails where it waits longer than the patience, of which 0 is a nanosecond; and each where it begins
    /// when the link's life, from when it was accepted, is over.
    pub fn open(rt: R, port: u16, patience: Duration, life: Duration) -> Self
        ensures patience { result.patience ≡ patience }
        ensures life { result.life ≡ life }
    {
        let address = SocketAddr::V4(SocketAddrV4::new(Ipv4Addr::LOCALHOST, port));
        SocketDoor {
            entry: Entry::at(&rt, address),
            rt,
            patience,
            life,
        }
    }

    /// Whether links may come.
    pub fn is_open(&self) -> bool
        ensures { IsTrue result ↔ IsSome self.now.entry }
    {
        self.entry.is_some()
    }

    /// The port at which the door is open.
    pub fn port(&self) -> Option<u16>
        ensures { IsSome result ↔ IsSome self.now.entry }
    {
        Some(self.entry.as_ref()?.port)
    }
}

impl<R: Net + Clock + Copy> Door for SocketDoor<R> {
    type Line = SocketLink<R, R::Stream>;

    /// Waits for the next connection. Where the system fails to give one, as when too many files are open,
    /// it asks again after 10 ms. A connection that can't be made a link is dropped, and the next one waited
    /// for. After 2^64 - 1 of these there is none.
    fn next(&self) -> Option<Self::Line>
        ensures closed { IsNone self.now.entry → IsNone result }
        ensures life { IfSome result (λ l. l.life.span ≡ self.now.life) }
        ensures reads { IfSome result (λ l. l.read_faults.count ≡ 0) }
        ensures writes { IfSome result (λ l. l.write_faults.count ≡ 0) }
    {
        let entry = self.entry.as_ref()?;
        for _ in 0..u64::MAX {
            match entry.listener.accept() {
                Ok((stream, _)) => {
                    let link = SocketLink::over(self.rt, stream, self.patience, self.life);
                    if link.is_ok() {
                        return link.ok();
                    }
                }
                Err(_) => thread::sleep(&self.rt, Duration::from_millis(PAUSE)),
            }
        }
        None
    }
}
