// How long a link lives.
ghost use Rattle.std.specs.Prelude.{◌≡◌, IfOk};

use std::io;
use std::time::{Clock, Duration, Instant};

/// A span of time from a moment on, by a clock.
#[derive(Clone, Copy)]
pub struct Life<R> {
    clock: R,
    begun: Instant,
    pub span: Duration,
}

impl<R: Clock + Copy> Life<R> {
    /// The span from now on. An error is the clock's.
    pub fn begin(clock: R, span: Duration) -> io::Result<Self>
        ensures { IfOk result (λ l. l.span ≡ span) }
    {
        let begun = Instant::now(&clock)?;
        Ok(Life { clock, begun, span })
    }

    /// Whether the span has passed, or the clock doesn't tell.
    pub fn is_over(&self) -> bool {
        match self.begun.elapsed(&self.clock) {
            Ok(age) => age >= self.span,
            Err(_) => true,
        }
    }
}
