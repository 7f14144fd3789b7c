// What all workers did, put together.
ghost use Rattle.std.specs.Prelude.{◌≡◌, ℕ, ◌+◌, ◌<◌, ◌≤◌, List, [], ◌∷◌, ◌++◌, length, map, vec_len};
ghost use Rattle.std.specs.Prelude.{slice_index_or, All, IfOk};
ghost use Rattle.claim_board.specs.Seats.{IsSeatOf, sizes, all_drawn};
ghost use Rattle.room_workers.specs.Places.{numbers};
ghost use Rattle.room_workers.specs.Works.{AreWorked, AreNumbered, seats_of};

use crate::NoMemory;
use crate::job::RoomedJob;
use crate::work::{Worked, Worker};
use claim_board::{Board, Seat};
use std::alloc::Global;

/// The workers of these seats, numbered from 0.
pub fn number(alloc: Global, board: &Board, seats: Vec<Seat>) -> Result<Vec<Worker>, NoMemory>
    requires { All (λ s. IsSeatOf board.now s) seats.items × (sizes seats.items ≡ board.now.1.seats) }
    ensures seats { IfOk result (λ v. seats_of v.items ≡ seats.items) }
    ensures numbers { IfOk result (λ v. AreNumbered v.items) }
{
    let mut workers = Vec::with_capacity(alloc, board.seats() as usize)?;
    for seat in seats {
        let number = workers.len() as u32;
        workers.push(Worker { number, seat })?;
    }
    Ok(workers)
}

/// All seats, and all results.
pub fn gather<J: RoomedJob>(
    alloc: Global,
    jobs: &J,
    board: &Board,
    mut worked: Vec<Result<Worked<J::Done>, NoMemory>>,
) -> Result<(Vec<Seat>, Vec<(u32, J::Done)>), NoMemory>
    requires { AreWorked (J.gives jobs.now) board.now worked.items }
    ensures len { IfOk result (λ r. vec_len r.0 ≡ vec_len worked) }
    ensures seats { IfOk result
        (λ r. All (λ s. IsSeatOf board.now s) r.0.items × All (λ s. 0 < s.1.ends) r.0.items) }
    ensures sizes { IfOk result (λ r. sizes r.0.items ≡ board.now.1.seats) }
    ensures numbers { IfOk result (λ r. numbers r.1.items ≡ all_drawn r.0.items) }
    ensures gives { IfOk result (λ r. All (λ p. J.gives jobs.now p.0 p.1) r.1.items) }
{
    let mut seats = Vec::new(alloc);
    let mut pairs = Vec::new(alloc);
    while let Some(next) = worked.pop() {
        let Worked { seat, mut results } = next?;
        seats.push(seat)?;
        pairs.append(&mut results)?;
    }
    Ok((seats, pairs))
}
