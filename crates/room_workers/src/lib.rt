// Jobs by number, which several threads draw from a board and do.
#![tactic(auto)]

mod gather;
mod job;
mod place;
mod work;

ghost use Rattle.std.specs.Prelude.{◌≡◌, ℕ, ◌+◌, ◌<◌, ◌≤◌, List, [], length, slice_index_or, vec_len};
ghost use Rattle.std.specs.Prelude.{All, IfNone, IfOk, IfSome};
ghost use Rattle.claim_board.specs.Rule.{EachOnceBelow};
ghost use Rattle.claim_board.specs.Seats.{sizes, IsSeatOf};
ghost use Rattle.room_workers.specs.Works.{IsWorkOf};

use claim_board::{Board, Seat};
use gather::{gather, number};
pub use job::{Job, RoomedJob, Roomless};
use place::place;
pub use std::alloc::AllocError as NoMemory;
use std::alloc::Global;
use std::thread;
use std::thread::Threads;
use work::{Worked, Worker, work};
use world_io::Gate;

/// Does each job once, by as many threads as there are seats: the results, each at the place of its job's
/// number, and the seat that joins all seats. A thread passes the gate before each job. Where no thread can
/// be made the caller does the work itself.
///
/// Where a job wants memory that is not there, so does the call, and the seats are given up; the others still
/// do what they drew.
pub fn claimed_map<R: Threads + Sync, J: Job + Sync, G: Gate + Sync>(
    rt: &R,
    alloc: Global,
    jobs: &J,
    board: &Board,
    seats: Vec<Seat>,
    gate: &G,
) -> Result<(Vec<J::Done>, Seat), NoMemory>
    requires count { J.size jobs.now ≡ board.now.1.limit }
    requires of { All (λ s. IsSeatOf board.now s × (s.1.drawn ≡ [])) seats.items }
    requires all { sizes seats.items ≡ board.now.1.seats }
    ensures len { IfOk result (λ r. vec_len r.0 ≡ J.size jobs.now) }
    ensures each { IfOk result (λ r. (k : ℕ) (d : _) → k < J.size jobs.now
        → J.gives jobs.now k (slice_index_or r.0.items k d)) }
    ensures seat { IfOk result (λ r. IsSeatOf board.now r.1 × (r.1.1.size ≡ board.now.1.seats)) }
    ensures whole { IfOk result (λ r. EachOnceBelow board.now.1.limit r.1.1.drawn) }
{
    claimed_map_in(rt, alloc, &Roomless { jobs }, board, seats, gate)
}

/// The same of jobs that a thread does in a room of its own, which it makes before its first draw.
pub fn claimed_map_in<R: Threads + Sync, J: RoomedJob + Sync, G: Gate + Sync>(
    rt: &R,
    alloc: Global,
    jobs: &J,
    board: &Board,
    seats: Vec<Seat>,
    gate: &G,
) -> Result<(Vec<J::Done>, Seat), NoMemory>
    requires ready { J.ready jobs.now }
    requires count { J.size jobs.now ≡ board.now.1.limit }
    requires of { All (λ s. IsSeatOf board.now s × (s.1.drawn ≡ [])) seats.items }
    requires all { sizes seats.items ≡ board.now.1.seats }
    ensures len { IfOk result (λ r. vec_len r.0 ≡ J.size jobs.now) }
    ensures each { IfOk result (λ r. (k : ℕ) (d : _) → k < J.size jobs.now
        → J.gives jobs.now k (slice_index_or r.0.items k d)) }
    ensures seat { IfOk result (λ r. IsSeatOf board.now r.1 × (r.1.1.size ≡ board.now.1.seats)) }
    ensures whole { IfOk result (λ r. EachOnceBelow board.now.1.limit r.1.1.drawn) }
{
    let workers = number(alloc, board, seats)?;
    let worked = thread::map_vec(
        rt,
        workers,
        &|worker: Worker| -> Result<Worked<J::Done>, NoMemory>
            requires { IsSeatOf board.now worker.seat × (worker.seat.1.drawn ≡ [])
                × (J.size jobs.now ≡ board.now.1.limit) × J.ready jobs.now }
            ensures { IfOk result (λ w. IsWorkOf (J.gives jobs.entry.now) board.entry.now worker.seat w) }
        { work(alloc, jobs, board, gate, worker) },
    )?;
    let (back, pairs) = gather(alloc, jobs, board, worked)?;
    match board.finish(back) {
        Some(seat) => Ok((place(alloc, jobs, jobs.count(), pairs)?, seat)),
        None => unreachable!(),
    }
}
