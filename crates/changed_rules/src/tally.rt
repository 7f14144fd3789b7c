// Numbers, and how often each is there.
ghost use Rattle.std.specs.Prelude.{◌≡◌, ◌<◌, ◌≤◌, ◌+◌, ◌-◌, ◌==◌, ℕ, cond, IfOk, OnOk, MatchBool};
ghost use Rattle.changed_rules.specs.Counts.{tallied};

use std::alloc::{AllocError as NoMemory, Global};
use std::collections::BTreeMap;

/// Numbers, each with how often it is there, if at all.
#[derive(Drop)]
pub(crate) struct Tally {
    times: BTreeMap<u64, u64>,
}

impl Tally {
    /// A tally with no number.
    pub(crate) fn new(alloc: Global) -> Tally
        ensures { (n : ℕ) → tallied result n ≡ 0 }
    {
        Tally {
            times: BTreeMap::new(alloc),
        }
    }

    /// Adds the number once, where it is there less often than `most`, and says whether it does.
    pub(crate) fn enter(&mut self, number: u64, most: u64) -> Result<bool, NoMemory>
        ensures { IfOk result (λ fits. MatchBool fits
            ((tallied self.old number < most)
            × ((n : ℕ) → tallied self.new n ≡ tallied self.old n + cond (number == n) 1 0))
            (most ≤ tallied self.old number)) }
    {
        let times = self.times.insert(number, 1)?.unwrap_or(0);
        if times > 0 && times < most {
            self.times.insert(number, times + 1)?;
        }
        Ok(times < most)
    }

    /// Takes the number out once, where it is there.
    pub(crate) fn leave(&mut self, number: u64) -> Result<(), NoMemory>
        ensures { OnOk result
            ((n : ℕ) → tallied self.new n ≡ tallied self.old n - cond (number == n) 1 0) }
    {
        let times = self.times.remove(&number).unwrap_or(0);
        if times > 1 {
            self.times.insert(number, times - 1)?;
        }
        Ok(())
    }
}
