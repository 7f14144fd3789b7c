// Open blocks and calls.
use crate::place::Place;

/// A block that is open, or a frame that was called.
#[derive(Clone, Copy)]
pub(crate) enum Control<'a> {
    /// A block: where a branch to it leads, which is the loop itself where it is one and what is behind its
    /// end elsewhere; whether it takes an
    /// operand along; how many operands of the function stand below it.
    Label {
        again: Place<'a>,
        is_loop: bool,
        has_result: bool,
        height: usize,
    },
    /// A frame: what is behind the call, whether it gives a result, and how many blocks of the caller are
    /// open.
    Frame {
        rest: Place<'a>,
        has_result: bool,
        depth: usize,
    },
}
