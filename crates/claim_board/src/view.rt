// What a seat of a board knows.
use std::collections::LinkedList;

/// What a seat drew, in its order; how often a draw of it found no number; for how many of the board's seats
/// it stands; and the board's two numbers. Contracts alone speak of it: no value is made.
pub struct View {
    pub drawn: LinkedList<u32>,
    pub ends: u64,
    pub size: u64,
    pub limit: u64,
    pub seats: u64,
}

/// The two numbers of a board: below which its numbers are, and for how many seats it was made.
#[derive(Clone, Copy)]
pub struct Bounds {
    pub limit: u64,
    pub seats: u64,
}
