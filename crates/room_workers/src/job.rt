// What is done for each number.
ghost use Rattle.std.specs.Prelude.{◌≡◌, ℕ, ◌<◌, IfOk};

use crate::NoMemory;
use std::alloc::Global;

/// A row of jobs, numbered from 0, which all threads are lent.
pub trait Job {
    type Done: Send + Drop;

    ghost size: { Self → ℕ };
    // What job k may give.
    ghost gives: { Self → ℕ → Self.Done → Type 0 };

    fn count(&self) -> u32
        ensures { result ≡ size self.now };

    fn run(&self, alloc: Global, k: u32) -> Result<Self::Done, NoMemory>
        requires { k < size self.now }
        ensures { IfOk result (λ done. gives self.now k done) };
}

/// A row of jobs, numbered from 0, which a worker does one after the other in a room of its own: what it
/// would else make anew for each. The room is made in the worker's thread, before its first draw, and stays
/// there.
pub trait RoomedJob {
    type Room: Send + Drop;

    type Done: Send + Drop;

    // What the jobs ask of what they are lent.
    ghost ready: { Self → Type 0 };

    ghost size: { Self → ℕ };
    // What job k may give.
    ghost gives: { Self → ℕ → Self.Done → Type 0 };

    fn count(&self) -> u32
        ensures { result ≡ size self.now };

    fn room(&self, alloc: Global) -> Result<Self::Room, NoMemory>;

    fn run(&self, alloc: Global, room: &mut Self::Room, k: u32) -> Result<Self::Done, NoMemory>
        requires ready { ready self.now }
        requires within { k < size self.now }
        ensures { IfOk result (λ done. gives self.now k done) };
}

/// Jobs that take no room.
#[derive(Drop)]
pub struct Roomless<'a, J: Job> {
    pub jobs: &'a J,
}

impl<'a, J: Job> RoomedJob for Roomless<'a, J> {
    type Room = ();

    type Done = J::Done;

    ghost ready = { λ r. Unit {0} };

    ghost size = { λ r. J.size r.jobs.now };

    ghost gives = { λ r k done. J.gives r.jobs.now k done };

    fn count(&self) -> u32 {
        self.jobs.count()
    }

    fn room(&self, _alloc: Global) -> Result<(), NoMemory> {
        Ok(())
    }

    fn run(&self, alloc: Global, _room: &mut (), k: u32) -> Result<J::Done, NoMemory> {
        self.jobs.run(alloc, k)
    }
}
