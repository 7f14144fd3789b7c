// A network and a clock in memory, which do what the system's seldom do.
use std::cell::Cell;
use std::io;
use std::io::{ErrorKind, Read, Write};
use std::net::{Net, OpenListener, OpenStream, SocketAddr};
use std::os::fd::{AsRawFd, RawFd};
use std::time::{Clock, Duration};

/// A stream of sevens, of which signals interrupt the first reads and writes.
#[derive(Drop)]
pub struct OddStream {
    /// How many reads and writes are interrupted.
    pub interrupts: u64,
    /// How much a write takes at most.
    pub takes: usize,
    /// Whether no option can be set.
    pub refuses: bool,
}

impl OddStream {
    // Whether this call is interrupted.
    fn is_interrupted(&mut self) -> bool {
        let interrupted = self.interrupts > 0;
        self.interrupts = self.interrupts.saturating_sub(1);
        interrupted
    }

    fn set_option(&self) -> io::Result<()> {
        if self.refuses {
            return Err(io::Error::from(ErrorKind::Unsupported));
        }
        Ok(())
    }
}

impl Read for OddStream {
    fn read(&mut self, buf: &mut [u8]) -> io::Result<usize> {
        if self.is_interrupted() {
            return Err(io::Error::from(ErrorKind::Interrupted));
        }
        buf.fill(7);
        Ok(buf.len())
    }
}

impl Write for OddStream {
    fn write(&mut self, buf: &[u8]) -> io::Result<usize> {
        if self.is_interrupted() {
            return Err(io::Error::from(ErrorKind::Interrupted));
        }
        Ok(buf.len().min(self.takes))
    }

    fn flush(&mut self) -> io::Result<()> {
        Ok(())
    }
}

impl OpenStream for OddStream {
    fn set_read_timeout(&self, _dur: Option<Duration>) -> io::Result<()> {
        self.set_option()
    }

    fn set_write_timeout(&self, _dur: Option<Duration>) -> io::Result<()> {
        self.set_option()
    }

    fn set_nodelay(&self, _nodelay: bool) -> io::Result<()> {
        self.set_option()
    }
}

impl AsRawFd for OddStream {
    fn as_raw_fd(&self) -> RawFd {
        -1
    }
}

/// A listener whose first two calls fail, and whose third gives a stream that refuses its options.
#[derive(Drop)]
pub struct OddListener {
    calls: Cell<u64>,
    address: SocketAddr,
}

impl OpenListener for OddListener {
    type Stream = OddStream;

    fn accept(&self) -> io::Result<(OddStream, SocketAddr)> {
        let call = self.calls.get();
        self.calls.set(call.saturating_add(1));
        if call < 2 {
            return Err(io::Error::from(ErrorKind::OutOfMemory));
        }
        let stream = OddStream {
            interrupts: 3,
            takes: 2,
            refuses: call == 2,
        };
        Ok((stream, self.address))
    }

    fn local_addr(&self) -> io::Result<SocketAddr> {
        Ok(self.address)
    }
}

impl AsRawFd for OddListener {
    fn as_raw_fd(&self) -> RawFd {
        -1
    }
}

/// The network, and a clock that goes on where one sleeps.
#[derive(Drop)]
pub struct OddNet {
    /// The time in milliseconds.
    pub now: Cell<u64>,
    /// How often it slept.
    pub sleeps: Cell<u64>,
    /// Whether the clock can't be read.
    pub is_broken: Cell<bool>,
}

impl OddNet {
    pub fn new() -> Self {
        OddNet {
            now: Cell::new(0),
            sleeps: Cell::new(0),
            is_broken: Cell::new(false),
        }
    }
}

impl Net for OddNet {
    type Stream = OddStream;

    type Listener = OddListener;

    // The ports below 1024 are not allowed.
    fn bind(&self, address: SocketAddr) -> io::Result<OddListener> {
        if address.port() < 1024 {
            return Err(io::Error::from(ErrorKind::PermissionDenied));
        }
        Ok(OddListener {
            calls: Cell::new(0),
            address,
        })
    }

    fn connect(&self, _address: SocketAddr) -> io::Result<OddStream> {
        Err(io::Error::from(ErrorKind::Unsupported))
    }
}

impl Clock for OddNet {
    fn monotonic(&self) -> io::Result<Duration> {
        if self.is_broken.get() {
            return Err(io::Error::from(ErrorKind::Unsupported));
        }
        Ok(Duration::from_millis(self.now.get()))
    }

    fn since_1970(&self) -> io::Result<Duration> {
        self.monotonic()
    }

    fn sleep(&self, duration: Duration) {
        let milliseconds = u64::try_from(duration.as_millis()).unwrap_or(u64::MAX);
        self.now.set(self.now.get().saturating_add(milliseconds));
        self.sleeps.set(self.sleeps.get().saturating_add(1));
    }
}
