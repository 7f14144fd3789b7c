// How the run of a player's module ended.
use crate::intent::Intents;
use object_store::Bytes;

/// How a run ended.
#[derive(Clone, Copy, Debug, PartialEq, Eq)]
pub enum RunOutcome {
    /// The module's work was done.
    Finished,
    /// A trap ended it: its number, 1 to 9.
    Trapped(u8),
    /// The allowance of instructions was used up.
    Spent,
}

/// A player's part of a tick, as the run of his module left it.
#[derive(Drop)]
pub struct PlayerRun {
    /// 1 to 2^32 - 1.
    pub player: u32,
    pub outcome: RunOutcome,
    /// The instructions that the run took.
    pub used: u64,
    /// What he wants, in canonical order.
    pub intents: Intents,
    /// His memory text after the run.
    pub memory: Bytes,
}
