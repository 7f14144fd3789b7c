// How often a side of a link failed.
ghost use Rattle.std.specs.Prelude.{◌≡◌, ◌≤◌};
ghost use Rattle.world_io.specs.Causes.{one_more};

use world_io::Failed;

/// The failures of a side so far. The count stops at `2^64 - 1`.
#[derive(Clone, Copy, Debug)]
pub struct FaultCount {
    pub count: u64,
}

impl FaultCount {
    pub const ZERO: FaultCount = FaultCount { count: 0 };

    /// Counts a failure, and gives the answer for it.
    pub fn raise(&mut self) -> Failed
        ensures raised { self.new.count ≡ one_more self.old.count }
        ensures later { self.old.count ≤ self.new.count }
    {
        self.count = self.count.saturating_add(1);
        Failed
    }
}
