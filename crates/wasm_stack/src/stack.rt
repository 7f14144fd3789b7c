// The stack of a thread.
ghost use Rattle.std.specs.Prelude.{◌≡◌, ◌+◌, ◌<◌, ◌≤◌, ◌↔◌, length, take, reverse, slice_index, IfOk};
ghost use Rattle.std.specs.Prelude.{IsTrue, MatchOption, [], if◌then◌else◌};
ghost use Rattle.wasm_values.specs.Syntax.{Ops, no_ops};
ghost use Rattle.wasm_steps.specs.Program.{most_frames, most_values};
ghost use Rattle.wasm_steps.specs.Threads.{Leaves, Branches, frame_count, size};
ghost use Rattle.wasm_soundness.specs.Ready.{CanBranch, open_labels};
ghost use Rattle.wasm_stack.specs.Held.{Held, running, nothing, pushed, without, replaced, with_local};
ghost use Rattle.wasm_stack.specs.Held.{opened, called, most_controls, IsAtEnd};
ghost use Rattle.wasm_stack.specs.Standing.{held};
ghost use Rattle.wasm_stack.specs.View.{ops_at, rest_of, count};

use crate::control::Control;
use crate::place::Place;
use call_frames::{MOST_WAITING as MOST_FRAMES, Values};
use std::alloc::{AllocError, Global};
use std::marker::Model;

/// How many levels a function makes at most: 200 blocks, and its frame.
const LABELS_A_FRAME: usize = 201;

/// How many blocks and frames stand at most.
pub const MOST_CONTROLS: usize = MOST_FRAMES * LABELS_A_FRAME;

/// What a thread holds beside the instructions that it runs: operands, locals, open blocks and frames. All
/// room is reserved when it is made.
#[derive(Drop)]
pub struct Stack<'a> {
    controls: Vec<Control<'a>>,
    /// How many blocks of the running function are open.
    depth: usize,
    values: Values,
}

impl<'a> Model for Stack<'a> {
    ghost use Rattle.wasm_stack.specs.Standing.{Standing};
    ghost use Rattle.std.specs.Coded.{codes};
    ghost use Rattle.wasm_values.specs.contracts.instr.Instr as instr;

    ghost Value = { Standing };

    ghost coded = { Prim.hlevel (codes, instr.the_row.coded) };

    ghost use Rattle.wasm_stack.specs.inner.Sound.{stack_view, IsSound};

    ghost view = { stack_view };

    ghost invariant = { IsSound };
}

impl<'a> Stack<'a> {
    /// With nothing on it. It reserves the room and touches none of it.
    pub fn new(alloc: Global) -> Result<Stack<'a>, AllocError>
        ensures { IfOk result (λ stack. held stack ≡ nothing) }
    {
        let controls = Vec::with_capacity(alloc, MOST_CONTROLS)?;
        let values = Values::new(alloc)?;
        Ok(Stack {
            controls,
            depth: 0,
            values,
        })
    }

    /// Drops all that is held.
    pub fn reset(&mut self)
        ensures { held self.new ≡ nothing }
    {
        self.controls.clear();
        self.depth = 0;
        self.values.reset();
    }

    /// The number of locals and operands of all frames.
    #[inline]
    pub fn size(&self) -> usize
        ensures { result ≡ size (running no_ops (held self.now)) }
    {
        self.values.size()
    }

    /// The number of frames.
    #[inline]
    pub fn frame_count(&self) -> usize
        ensures { result ≡ frame_count (held self.now).levels }
    {
        self.values.waiting_count()
    }

    /// The number of open blocks of the running function.
    #[inline]
    pub fn open_labels(&self) -> usize
        ensures { result ≡ open_labels (held self.now).levels }
    {
        self.depth
    }

    /// The operand that so many stand on.
    #[inline]
    pub fn operand(&self, above: usize) -> u64
        requires { above < length (held self.now).operands }
        ensures { result ≡ slice_index (held self.now).operands above }
    {
        self.values.operand(above)
    }

    /// The top operands, so many, the deepest first.
    #[inline]
    pub fn operands(&self, count: usize) -> &[u64]
        requires { count ≤ length (held self.now).operands }
        ensures { result.now ≡ reverse (take count (held self.now).operands) }
    {
        self.values.operands(count)
    }

    /// Pushes an operand, where there is room.
    #[inline]
    pub fn push(&mut self, value: u64) -> bool
        ensures room { IsTrue result ↔ (size (running no_ops (held self.old)) < most_values) }
        ensures pushed { held self.new ≡ (if result then pushed value (held self.old) else (held self.old)) }
    {
        self.values.push(value)
    }

    /// Pushes an operand for which there is room.
    #[inline]
    pub fn push_within(&mut self, value: u64)
        requires { size (running no_ops (held self.old)) < most_values }
        ensures { held self.new ≡ pushed value (held self.old) }
    {
        if !self.push(value) {
            unreachable!()
        }
    }

    /// Takes the top operands away, so many.
    #[inline]
    pub fn discard(&mut self, count: usize)
        requires { count ≤ length (held self.old).operands }
        ensures { held self.new ≡ without count (held self.old) }
    {
        self.values.discard(count);
    }

    /// Puts a value in the place of the top operands, so many.
    #[inline]
    pub fn replace(&mut self, count: usize, value: u64)
        requires some { 0 < count }
        requires within { count ≤ length (held self.old).operands }
        ensures { held self.new ≡ replaced count value (held self.old) }
    {
        self.values.replace(count, value);
    }

    /// The local of an index.
    #[inline]
    pub fn local(&self, index: u32) -> u64
        requires { index < length (held self.now).locals }
        ensures { result ≡ slice_index (held self.now).locals index }
    {
        self.values.local(index)
    }

    /// Sets the local of an index.
    #[inline]
    pub fn set_local(&mut self, index: u32, value: u64)
        requires { index < length (held self.old).locals }
        ensures { held self.new ≡ with_local index value (held self.old) }
    {
        self.values.set_local(index, value);
    }

    /// Enters a block. A branch to it leads to `again` and takes an operand along where it has a result
    /// there. Its end leads to `again` too, but
    /// for a loop's, which leads behind the loop's instruction.
    #[inline]
    pub fn enter(&mut self, again: Place<'a>, is_loop: bool, has_result: bool)
        requires { length (held self.old).levels < most_controls }
        ensures { held self.new ≡ opened (count has_result) (ops_at again.entry) (rest_of is_loop again.entry)
            (held self.old) }
    {
        let height = self.values.operand_count();
        self.controls.push_reserved(Control::Label {
            again,
            is_loop,
            has_result,
            height,
        });
        self.depth += 1;
    }

    /// Calls a function whose end leads to `rest`, where there is room for its locals beside the parameters.
    #[inline]
    pub fn call(&mut self, rest: Place<'a>, params: usize, more: usize, has_result: bool) -> bool
        requires params { params ≤ length (held self.old).operands }
        requires frames { frame_count (held self.old).levels < most_frames }
        requires levels { size (running no_ops (held self.old)) + more ≤ most_values
            → length (held self.old).levels < most_controls }
        ensures room { IsTrue result ↔ (size (running no_ops (held self.old)) + more ≤ most_values) }
        ensures called { held self.new
            ≡ (if result then called params more (count has_result) (ops_at rest.entry) (held self.old)
            else (held self.old)) }
    {
        if !self.values.enter(params, more) {
            return false;
        }
        let depth = self.depth;
        self.controls.push_reserved(Control::Frame {
            rest,
            has_result,
            depth,
        });
        self.depth = 0;
        true
    }

    /// Leaves the innermost block or frame at its end, for what is behind it. Answers `None` where there is
    /// none.
    #[inline]
    pub fn leave(&mut self) -> Option<Place<'a>>
        requires { IsAtEnd (held self.old) }
        ensures { MatchOption result (((held self.old).levels ≡ []) × (held self.new ≡ held self.old))
            (λ place. Leaves (running no_ops (held self.old)) (running (ops_at place) (held self.new))) }
    {
        match self.controls.pop()? {
            Control::Label { again, is_loop, .. } => {
                self.depth -= 1;
                Some(if is_loop { again.behind() } else { again })
            }
            Control::Frame {
                rest,
                has_result,
                depth,
            } => {
                self.values.leave(usize::from(has_result));
                self.depth = depth;
                Some(rest)
            }
        }
    }

    /// Branches to a label of the running function, or out of it by the label behind those of its blocks.
    #[inline]
    pub fn branch(&mut self, to: usize) -> Place<'a>
        requires { CanBranch to (running no_ops (held self.old)) }
        ensures { (code : Ops)
            → Branches to (running code (held self.old)) (running (ops_at result) (held self.new)) }
    {
        let index = self.controls.len() - 1 - to;
        let target = self.controls[index];
        self.controls.truncate(index);
        match target {
            Control::Label {
                again,
                has_result,
                height,
                ..
            } => {
                self.depth -= to + 1;
                self.values.cut(height, usize::from(has_result));
                again
            }
            Control::Frame {
                rest,
                has_result,
                depth,
            } => {
                self.values.leave(usize::from(has_result));
                self.depth = depth;
                rest
            }
        }
    }
}
