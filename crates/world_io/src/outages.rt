// The calls that are to fail.
ghost use Rattle.std.specs.Prelude.{◌≡◌, ◌↔◌, ◌≤◌, IsTrue, IsErr, OnErr};
ghost use Rattle.world_io.specs.Causes.{HasCause, one_more};

use crate::count::FaultCount;
use crate::source::Failed;

/// Which calls of a device in memory fail, counted from 0, with the numbers of calls and failures so far.
#[derive(Drop)]
pub struct Outages {
    fails: Vec<u64>,
    stop: Option<u64>,
    calls: u64,
    faults: FaultCount,
}

impl Outages {
    ghost use Rattle.world_io.specs.Outages.{Counted, IsFresh, NextIsOut};

    pub fn new(fails: Vec<u64>, stop: Option<u64>) -> Self
        ensures { IsFresh result fails.items stop }
    {
        Outages {
            fails,
            stop,
            calls: 0,
            faults: FaultCount::ZERO,
        }
    }

    /// Counts a call, which fails if it is to fail.
    pub fn next_call(&mut self) -> Result<(), Failed>
        ensures planned { IsErr result ↔ NextIsOut self.old }
        ensures counted { Counted self.old self.new result }
        ensures cause { HasCause self.old.faults.count self.new.faults.count result }
    {
        if self.is_out() {
            return Err(self.fail_call());
        }
        self.calls = self.calls.saturating_add(1);
        Ok(())
    }

    /// Counts a call that fails, by plan or not, and gives the answer for it.
    pub fn fail_call(&mut self) -> Failed
        ensures calls { self.new.calls ≡ one_more self.old.calls }
        ensures fails { self.new.fails ≡ self.old.fails }
        ensures stop { self.new.stop ≡ self.old.stop }
        ensures raised { self.new.faults.count ≡ one_more self.old.faults.count }
        ensures later { self.old.faults.count ≤ self.new.faults.count }
    {
        self.calls = self.calls.saturating_add(1);
        self.faults.raise()
    }

    /// Counts a failure of the last call that was not planned, and gives the answer for it.
    pub fn refuse(&mut self) -> Failed
        ensures calls { self.new.calls ≡ self.old.calls }
        ensures fails { self.new.fails ≡ self.old.fails }
        ensures stop { self.new.stop ≡ self.old.stop }
        ensures raised { self.new.faults.count ≡ one_more self.old.faults.count }
        ensures later { self.old.faults.count ≤ self.new.faults.count }
    {
        self.faults.raise()
    }

    fn is_out(&self) -> bool
        ensures { IsTrue result ↔ NextIsOut self.now }
    {
        let is_past = match self.stop {
            Some(stop) => self.calls > stop,
            None => false,
        };
        is_past || self.fails.contains(&self.calls)
    }
}
