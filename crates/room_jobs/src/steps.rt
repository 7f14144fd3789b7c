// Workers who step rooms.
ghost use Rattle.std.specs.Prelude.{◌≡◌, ◌<◌, ◌≤◌, ◌^◌, ℕ, length, slice_index_or, IfOk};
ghost use Rattle.room_step.specs.declared.step.StepDone.{StepDone};
ghost use Rattle.room_jobs.specs.RoomJobs.{IsStepDone};
ghost use Rattle.room_step.specs.Steps.{MayBeStepped};

use crate::jobs::RoomJobs;
use claim_board::Board;
use intent_book::Intents;
use object_store::Room;
use room_step::StepDone;
use room_workers::{NoMemory, claimed_map};
use std::alloc::Global;
use std::thread::Threads;
use world_io::Gate;

/// Steps each of these rooms once, by its list of entries, by so many workers, or one a room where these are
/// fewer, who draw from a board. The step of a room stands at its place.
pub fn steps_by_workers<R: Threads + Sync, G: Gate + Sync>(
    rt: &R,
    alloc: Global,
    rooms: &[Room],
    lists: &[Intents],
    gate: &G,
    workers: u32,
) -> Result<Vec<StepDone>, NoMemory>
    requires some { (0 < workers) × (workers ≤ 16) }
    requires rooms { MayBeStepped rooms.now lists.now }
    ensures many { IfOk result (λ done. length done.items ≡ length rooms.now) }
    ensures each { IfOk result (λ done. (k : ℕ) (default : StepDone) → k < length rooms.now
        → IsStepDone rooms.now lists.now k (slice_index_or done.items k default)) }
{
    let jobs = RoomJobs {
        rooms,
        lists,
        count: rooms.len() as u32,
    };
    let (board, seats) = Board::new(alloc, jobs.count, workers.min(jobs.count).max(1))?;
    let (done, _seat) = claimed_map(rt, alloc, &jobs, &board, seats, gate)?;
    Ok(done)
}
