// A pace by the clock.
ghost use Rattle.std.specs.Prelude.{◌≡◌};

use std::thread;
use std::time::{Clock, Duration};
use world_link::Pace;

/// A pace that sleeps before each tick.
#[derive(Drop)]
pub struct SleepPace<R> {
    clock: R,
    milliseconds: u64,
}

impl<R: Clock> SleepPace<R> {
    /// A pace that sleeps so many milliseconds, and not at all for 0.
    pub fn new(clock: R, milliseconds: u64) -> Self
        ensures { result.milliseconds ≡ milliseconds }
    {
        SleepPace {
            clock,
            milliseconds,
        }
    }
}

impl<R: Clock> Pace for SleepPace<R> {
    fn wait(&mut self) {
        if self.milliseconds > 0 {
            thread::sleep(&self.clock, Duration::from_millis(self.milliseconds));
        }
    }
}
