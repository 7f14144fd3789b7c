// What was done to an object.

/// What was done to an object so far in a tick: the sums of its damage and of its healing, each at most
/// 2^32 - 1.
#[derive(Clone, Copy)]
pub struct Tally {
    pub damage: u32,
    pub healing: u32,
}

impl Tally {
    /// Of an object to which nothing was done.
    pub const NONE: Tally = Tally {
        damage: 0,
        healing: 0,
    };
}
