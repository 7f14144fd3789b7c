// What is recorded of the uploads and the runs of a tick.
use intent_book::{Intents, RunOutcome};
use object_store::Bytes;

/// An upload of a tick, with its result.
#[derive(Drop)]
pub struct UploadEntry {
    /// Who is said to have sent it.
    pub player: u32,
    /// 0 where it is accepted, and else the number of the refusal, 1 to 10.
    pub result_number: u8,
    /// The bytes of the module, none where it is longer than 1 MiB.
    pub bytes: Bytes,
}

/// The run of a player's module in a tick. The memory text that it left stands in his account.
#[derive(Drop)]
pub struct RunEntry {
    /// 1 to 2^32 - 1.
    pub player: u32,
    pub outcome: RunOutcome,
    /// The instructions that the run took.
    pub used: u64,
    /// What he wants, in canonical order.
    pub intents: Intents,
}
