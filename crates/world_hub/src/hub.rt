// The hub, the ticker and the passes.
ghost use Rattle.std.specs.Prelude.{◌≡◌};
ghost use Rattle.crossbeam_queue.specs.Passes.{ruled_capacity};

use crate::queue::{QueuePass, UploadQueue};
use crate::status::{StatusReader, StatusWriter};
use crate::turns::Turns;
pub use std::alloc::AllocError as NoMemory;

mod calls;

/// How many uploads wait at most.
pub const PLACES: usize = 64;

/// What sessions and the ticker share.
#[derive(Drop)]
pub struct Hub {
    queue: UploadQueue,
    turns: Turns,
    ghost places: { ruled_capacity queue ≡ 64 },
    ghost one: { turns.table.shared.key.table_id ≡ queue.table.shared.table_id },
}

/// What takes uploads and publishes summaries, of which there is one. `end` ends it, and nothing else may.
pub struct Ticker {
    seat: QueuePass,
    writer: Option<StatusWriter>,
}

/// What one session at a time offers uploads and reads the status with.
#[derive(Drop)]
pub struct Pass {
    seat: QueuePass,
    reader: Option<StatusReader>,
}
