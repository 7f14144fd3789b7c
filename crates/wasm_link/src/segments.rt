// Whether the segments of a module are within its table and its memory.
ghost use Rattle.std.specs.Prelude.{◌≡◌, ◌+◌, ◌<◌, ◌≤◌, ℕ, MatchOption, All, Any, IfOk};
ghost use Rattle.wasm_typing.specs.inner.Stands.{Exactly};
ghost use Rattle.wasm_module.specs.Sections.{module_view};
ghost use Rattle.wasm_link.specs.Linking.{Span, Fits, FirstNot, table_size, spans};
ghost use Rattle.wasm_link.specs.Made.{IsCounted};
ghost use Rattle.wasm_link.specs.inner.Images.{IsOf, EndsIn};

use crate::constants::value_of;
use crate::image::Interval;
use std::alloc::{AllocError, Global};
use wasm_module::{Bounds, Element, Module, Segment};

const PAGE_SIZE: u64 = 65_536;

/// The least size of the one table or memory, or 0 where there is none.
pub(crate) fn least_size(bounds: &[Bounds]) -> u32
    ensures { result ≡ table_size bounds.now }
{
    match bounds.first() {
        Some(one) => one.min,
        None => 0,
    }
}

fn fits(offset: u64, count: u64, size: u64) -> bool
    ensures { Exactly (offset + count ≤ size) result }
{
    count <= size && offset <= size - count
}

/// A segment.
pub(crate) trait Placed {
    ghost span: { ℕ → Self → Span };

    /// Whether it ends at the end at most, where there are so many entries.
    fn is_within(&self, size: u64) -> bool
        ensures { Exactly (Fits (span size self.now)) result };

    /// Where its entries stand.
    fn interval(&self) -> Interval
        ensures is { (size : ℕ) → IsOf (span size self.now) result }
        ensures sized { (size : ℕ) → (span size self.now).size ≡ size };
}

impl Placed for Element {
    ghost use Rattle.wasm_link.specs.Made.{element_span};

    ghost span = { element_span };

    fn is_within(&self, size: u64) -> bool {
        fits(value_of(&self.offset), self.funcs.len(), size)
    }

    fn interval(&self) -> Interval {
        Interval {
            start: value_of(&self.offset) as usize,
            len: self.funcs.len() as usize,
        }
    }
}

impl Placed for Segment {
    ghost use Rattle.wasm_link.specs.Made.{data_span};

    ghost span = { data_span };

    fn is_within(&self, size: u64) -> bool {
        fits(value_of(&self.offset), self.bytes.len(), size)
    }

    fn interval(&self) -> Interval {
        Interval {
            start: value_of(&self.offset) as usize,
            len: self.bytes.len() as usize,
        }
    }
}

/// The intervals of the segments that have entries.
pub(crate) fn intervals_of<S: Placed>(
    alloc: Global,
    segments: &[S],
) -> Result<Vec<Interval>, AllocError>
    ensures ends { IfOk result
        (λ intervals. (size : ℕ) → All (λ segment. Fits (S.span size segment)) segments.now
        → All (EndsIn size) intervals.items) }
    ensures each { IfOk result
        (λ intervals. All (λ segment. (size : ℕ) → 0 < (S.span size segment).count
        → Any (IsOf (S.span size segment)) intervals.items) segments.now) }
{
    let mut intervals = Vec::new(alloc);
    let mut at = 0usize;
    while at < segments.len() {
        let interval = segments[at].interval();
        if interval.len > 0 {
            intervals.push(interval)?;
        }
        at += 1;
    }
    Ok(intervals)
}

/// The place of the first segment that passes the end.
fn first_past<S: Placed>(segments: &[S], size: u64) -> Option<usize>
    ensures { MatchOption result (All (λ segment. Fits (S.span size segment)) segments.now)
        (FirstNot (λ segment. Fits (S.span size segment)) segments.now) }
{
    let mut at = 0usize;
    while at < segments.len() {
        if !segments[at].is_within(size) {
            return Some(at);
        }
        at += 1;
    }
    None
}

/// The place of the first segment that passes the end of the table or the memory, those of the table first.
pub(crate) fn first_misfit(whole: &Module) -> Option<u32>
    requires { IsCounted (module_view whole.now) }
    ensures { MatchOption result (All Fits (spans (module_view whole.now)))
        (FirstNot Fits (spans (module_view whole.now))) }
{
    let elements = whole.elements.as_slice();
    let entries = u64::from(least_size(whole.tables.as_slice()));
    if let Some(place) = first_past(elements, entries) {
        return Some(place as u32);
    }
    let bytes = u64::from(least_size(whole.memories.as_slice())) * PAGE_SIZE;
    let place = first_past(whole.segments.as_slice(), bytes)?;
    Some((elements.len() + place) as u32)
}
