// The values of all call frames.
ghost use Rattle.std.specs.Prelude.{◌≡◌, ◌+◌, ◌^◌, ◌<◌, ◌≤◌, ◌↔◌, length, take, reverse, slice_index, IfOk};
ghost use Rattle.std.specs.Prelude.{IsTrue, if◌then◌else◌};
ghost use Rattle.call_frames.specs.Stack.{Stack, size, empty, pushed, without, replaced, with_local, entered};
ghost use Rattle.call_frames.specs.Stack.{left, cut, most_values, most_waiting};
ghost use Rattle.call_frames.specs.inner.View.{near_locals};

use crate::arrays::{append, clear, reach};
use std::alloc::{AllocError, Global};
use std::marker::Model;

/// How many locals and operands stand together at most.
pub const MOST_VALUES: usize = 65_536;

/// How many frames wait at most.
pub const MOST_WAITING: usize = 1_000;

/// How many locals of a frame are set to 0 at its call; those behind them are not touched.
const NEAR: usize = 64;

/// Where a frame stands: its locals from `base` to `floor`, its operands from `floor` to `end`.
/// A local at `near` or behind it counts only if its stamp is the frame's epoch.
#[derive(Clone, Copy)]
struct Span {
    base: usize,
    near: usize,
    floor: usize,
    end: usize,
    epoch: u64,
}

/// The locals and operands of all call frames. All room is reserved when it is made.
#[derive(Drop)]
pub struct Values {
    slots: Vec<u64>,
    stamps: Vec<u64>,
    waiting: Vec<Span>,
    top: Span,
    last: u64,
}

impl Model for Values {
    ghost use Rattle.call_frames.specs.Stack.{Stack};
    ghost use Rattle.call_frames.specs.inner.View.{stack_view, Invariant};

    ghost Value = { Stack };

    ghost view = { stack_view };

    ghost invariant = { Invariant };
}

impl Values {
    /// One frame with no locals and no operands. It reserves the room and touches none of it.
    pub fn new(alloc: Global) -> Result<Values, AllocError>
        ensures { IfOk result (λ values. values ≡ empty) }
    {
        let slots = Vec::with_capacity(alloc, MOST_VALUES)?;
        let stamps = Vec::with_capacity(alloc, MOST_VALUES)?;
        let waiting = Vec::with_capacity(alloc, MOST_WAITING)?;
        let top = Span {
            base: 0,
            near: 0,
            floor: 0,
            end: 0,
            epoch: 0,
        };
        Ok(Values {
            slots,
            stamps,
            waiting,
            top,
            last: 0,
        })
    }

    /// Drops all frames, and leaves one with no locals and no operands.
    pub fn reset(&mut self)
        ensures { self.new ≡ empty }
    {
        self.waiting.clear();
        self.top = Span {
            base: 0,
            near: 0,
            floor: 0,
            end: 0,
            epoch: 0,
        };
    }

    /// The number of locals and operands of all frames.
    #[inline]
    pub fn size(&self) -> usize
        ensures { result ≡ size self.now }
    {
        self.top.end
    }

    /// The number of operands of the frame that runs.
    #[inline]
    pub fn operand_count(&self) -> usize
        ensures { result ≡ length self.now.operands }
    {
        self.top.end - self.top.floor
    }

    /// The number of frames that wait.
    #[inline]
    pub fn waiting_count(&self) -> usize
        ensures { result ≡ length self.now.waiting }
    {
        self.waiting.len()
    }

    /// The operand that so many stand on.
    #[inline]
    pub fn operand(&self, above: usize) -> u64
        requires { above < length self.now.operands }
        ensures { result ≡ slice_index self.now.operands above }
    {
        self.slots[self.top.end - 1 - above]
    }

    /// The top operands, so many, the deepest first.
    #[inline]
    pub fn operands(&self, count: usize) -> &[u64]
        requires { count ≤ length self.now.operands }
        ensures { result.now ≡ reverse (take count self.now.operands) }
    {
        &self.slots[self.top.end - count..self.top.end]
    }

    /// Pushes an operand, where there is room.
    #[inline]
    pub fn push(&mut self, value: u64) -> bool
        ensures room { IsTrue result ↔ (size self.old < most_values) }
        ensures pushed { self.new ≡ (if result then pushed value self.old else self.old) }
    {
        let end = self.top.end;
        if end < self.slots.len() {
            self.slots[end] = value;
            self.top.end = end + 1;
            return true;
        }
        if !append(&mut self.slots, value, MOST_VALUES) {
            return false;
        }
        self.top.end = end + 1;
        true
    }

    /// Takes the top operands away, so many.
    #[inline]
    pub fn discard(&mut self, count: usize)
        requires { count ≤ length self.old.operands }
        ensures { self.new ≡ without count self.old }
    {
        self.top.end -= count;
    }

    /// Puts a value in the place of the top operands, so many.
    #[inline]
    pub fn replace(&mut self, count: usize, value: u64)
        requires some { 0 < count }
        requires within { count ≤ length self.old.operands }
        ensures { self.new ≡ replaced count value self.old }
    {
        let lowest = self.top.end - count;
        self.slots[lowest] = value;
        self.top.end = lowest + 1;
    }

    /// The local of an index.
    #[inline]
    pub fn local(&self, index: u32) -> u64
        requires { index < length self.now.locals }
        ensures { result ≡ slice_index self.now.locals index }
    {
        let slot = self.top.base + index as usize;
        if slot < self.top.near {
            return self.slots[slot];
        }
        if self.stamps[slot] == self.top.epoch {
            self.slots[slot]
        } else {
            0
        }
    }

    /// Sets the local of an index.
    #[inline]
    pub fn set_local(&mut self, index: u32, value: u64)
        requires { index < length self.old.locals }
        ensures { self.new ≡ with_local index value self.old }
    {
        let slot = self.top.base + index as usize;
        self.slots[slot] = value;
        if slot >= self.top.near {
            self.stamps[slot] = self.top.epoch;
        }
    }

    /// Calls a function: the top operands, so many, and then zeros are its locals, where there is room.
    #[inline]
    pub fn enter(&mut self, params: usize, more: usize) -> bool
        requires params { params ≤ length self.old.operands }
        requires depth { length self.old.waiting < most_waiting }
        ensures room { IsTrue result ↔ (size self.old + more ≤ most_values) }
        ensures entered { self.new ≡ (if result then entered params more self.old else self.old) }
    {
        let end = self.top.end;
        if more > MOST_VALUES - end {
            return false;
        }
        let span = called(end - params, end, end + more, self.last);
        reach(&mut self.slots, span.floor);
        reach(&mut self.stamps, stamped(&span));
        clear(&mut self.slots, end, span.near);
        self.last = span.epoch;
        self.top.end = span.base;
        self.waiting.push_reserved(self.top);
        self.top = span;
        true
    }

    /// Returns to the nearest frame that waits, with the top operand where there is a result.
    #[inline]
    pub fn leave(&mut self, results: usize)
        requires waits { 0 < length self.old.waiting }
        requires results { results ≤ 1 }
        requires operands { results ≤ length self.old.operands }
        ensures { self.new ≡ left results self.old }
    {
        let base = self.top.base;
        let end = self.top.end;
        let Some(caller) = self.waiting.pop() else {
            unreachable!()
        };
        self.top = caller;
        if results == 0 {
            return;
        }
        let value = self.slots[end - 1];
        self.slots[base] = value;
        self.top.end = base + 1;
    }

    /// Cuts the operands to a height, and keeps the top one where there is a result.
    #[inline]
    pub fn cut(&mut self, height: usize, results: usize)
        requires results { results ≤ 1 }
        requires operands { height + results ≤ length self.old.operands }
        ensures { self.new ≡ cut height results self.old }
    {
        let place = self.top.floor + height;
        if results == 0 {
            self.top.end = place;
            return;
        }
        let value = self.slots[self.top.end - 1];
        self.slots[place] = value;
        self.top.end = place + 1;
    }
}

/// Where a called frame stands. After the last number that is left, no local is far.
#[inline]
fn called(base: usize, written: usize, floor: usize, last: u64) -> Span
    requires order { (base ≤ written) × (written ≤ floor) }
    requires within { floor ≤ most_values }
    ensures base { result.base ≡ base }
    ensures floor { result.floor ≡ floor }
    ensures end { result.end ≡ floor }
    ensures near { (written ≤ result.near) × (result.near ≤ floor) }
    ensures enough { result.near < floor → base + near_locals ≤ result.near }
    ensures few { last + 1 < 2 ^ 64 → written < result.near → result.near ≤ base + near_locals }
    ensures all_near { floor ≤ result.near → result.epoch ≡ last }
    ensures some_far { result.near < floor → result.epoch ≡ last + 1 }
{
    let near = written.max(base + NEAR);
    if near < floor && last < u64::MAX {
        return Span {
            base,
            near,
            floor,
            end: floor,
            epoch: last + 1,
        };
    }
    Span {
        base,
        near: floor,
        floor,
        end: floor,
        epoch: last,
    }
}

/// How many stamps a frame reads.
#[inline]
fn stamped(span: &Span) -> usize
    ensures far { span.now.near < span.now.floor → result ≡ span.now.floor }
    ensures near { span.now.floor ≤ span.now.near → result ≡ 0 }
{
    if span.near < span.floor {
        span.floor
    } else {
        0
    }
}
