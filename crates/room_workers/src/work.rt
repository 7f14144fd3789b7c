// What one worker does.
ghost use Rattle.std.specs.Prelude.{◌≡◌, ℕ, ◌+◌, ◌<◌, ◌≤◌, List, [], ◌∷◌, ◌++◌, length, vec_len, All, IfOk};
ghost use Rattle.claim_board.specs.Seats.{IsSeatOf};
ghost use Rattle.room_workers.specs.Places.{numbers};

use crate::NoMemory;
use crate::job::RoomedJob;
use claim_board::{Board, Seat};
use std::alloc::Global;
use world_io::Gate;

/// A worker: its number, counted from 0, and its seat.
#[derive(Drop)]
pub struct Worker {
    pub number: u32,
    pub seat: Seat,
}

/// What a worker did: its seat, and the results beside the numbers of their jobs.
#[derive(Drop)]
pub struct Worked<D: Drop> {
    pub seat: Seat,
    pub results: Vec<(u32, D)>,
}

/// Draws until there is no number left, and does the job of each.
pub fn work<J: RoomedJob, G: Gate>(
    alloc: Global,
    jobs: &J,
    board: &Board,
    gate: &G,
    worker: Worker,
) -> Result<Worked<J::Done>, NoMemory>
    requires seat { IsSeatOf board.now worker.seat × (worker.seat.1.drawn ≡ []) }
    requires ready { J.ready jobs.now }
    requires count { J.size jobs.now ≡ board.now.1.limit }
    ensures seat { IfOk result (λ w. IsSeatOf board.now w.seat × (w.seat.1.size ≡ worker.seat.1.size)
        × (0 < w.seat.1.ends)) }
    ensures numbers { IfOk result (λ w. numbers w.results.items ≡ w.seat.1.drawn) }
    ensures gives { IfOk result (λ w. All (λ p. J.gives jobs.now p.0 p.1) w.results.items) }
{
    let Worker { number, mut seat } = worker;
    let mut room = jobs.room(alloc)?;
    let mut results = Vec::new(alloc);
    while let Some(k) = board.draw(&mut seat) {
        gate.pass(number, k);
        let done = jobs.run(alloc, &mut room, k)?;
        results.push((k, done))?;
    }
    Ok(Worked { seat, results })
}
