// The stretches that intervals cover.
ghost use Rattle.std.specs.Prelude.{ℕ, ◌^◌, All, AllPairs, IfOk};
ghost use Rattle.std.specs.List.Sorted.{IsNonDecreasingBy};
ghost use Rattle.wasm_link.specs.inner.Images.{IsBefore, IsLow, Ends, EndsIn, IsHeld, start_in};

use crate::image::{Interval, Stretch};
use std::alloc::{AllocError, Global};

/// Intervals with fewer entries than this between them share a stretch.
const GAP: usize = 32;

/// The stretches of intervals in rising order. Each interval is within one.
fn joined(alloc: Global, intervals: &[Interval]) -> Result<Vec<Stretch>, AllocError>
    requires rising { IsNonDecreasingBy start_in intervals.now }
    requires small { All (EndsIn (2 ^ 32)) intervals.now }
    ensures apart { IfOk result (λ stretches. AllPairs IsBefore stretches.items) }
    ensures low { IfOk result (λ stretches. All IsLow stretches.items) }
    ensures within { IfOk result (λ stretches. (size : ℕ) → All (EndsIn size) intervals.now
        → All (Ends size) stretches.items) }
    ensures held { IfOk result (λ stretches. All (IsHeld stretches.items) intervals.now) }
{
    let mut stretches = Vec::new(alloc);
    let start = match intervals.first() {
        Some(first) => first.start,
        None => return Ok(stretches),
    };
    let mut last = Stretch {
        start,
        len: 0,
        base: 0,
    };
    let mut at = 0usize;
    while at < intervals.len() {
        let interval = intervals[at];
        if interval.start < last.start + last.len + GAP {
            last.len = last.len.max(interval.start + interval.len - last.start);
        } else {
            stretches.push(last)?;
            last = Stretch {
                start: interval.start,
                len: interval.len,
                base: last.base + last.len,
            };
        }
        at += 1;
    }
    stretches.push(last)?;
    Ok(stretches)
}

/// The stretches of intervals. Each interval is within one.
pub(crate) fn stretches_of(
    alloc: Global,
    mut intervals: Vec<Interval>,
) -> Result<Vec<Stretch>, AllocError>
    requires small { All (EndsIn (2 ^ 32)) intervals.items }
    ensures apart { IfOk result (λ stretches. AllPairs IsBefore stretches.items) }
    ensures low { IfOk result (λ stretches. All IsLow stretches.items) }
    ensures within { IfOk result (λ stretches. (size : ℕ) → All (EndsIn size) intervals.items
        → All (Ends size) stretches.items) }
    ensures held { IfOk result (λ stretches. All (IsHeld stretches.items) intervals.items) }
{
    intervals.sort_unstable_by_key(|interval| interval.start);
    joined(alloc, intervals.as_slice())
}
