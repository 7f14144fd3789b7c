// Results put at the places of their numbers.
ghost use Rattle.std.specs.Prelude.{◌≡◌, ℕ, ◌+◌, ◌<◌, ◌≤◌, List, [], ◌∷◌, ◌++◌, length, map, replicate};
ghost use Rattle.std.specs.Prelude.{slice_index_or, vec_len, All, IfOk, IfSome, None, Some};
ghost use Rattle.claim_board.specs.Rule.{EachOnceBelow};
ghost use Rattle.room_workers.specs.Places.{numbers, IsFull, IsDoneAt};

use crate::NoMemory;
use crate::job::RoomedJob;
use std::alloc::Global;

/// The results in the order of their numbers.
pub fn place<J: RoomedJob>(
    alloc: Global,
    jobs: &J,
    n: u32,
    pairs: Vec<(u32, J::Done)>,
) -> Result<Vec<J::Done>, NoMemory>
    requires once { EachOnceBelow n (numbers pairs.items) }
    requires gives { All (λ p. J.gives jobs.now p.0 p.1) pairs.items }
    ensures len { IfOk result (λ v. vec_len v ≡ n) }
    ensures each { IfOk result (λ v. (k : ℕ) (d : _) → k < n
        → J.gives jobs.now k (slice_index_or v.items k d)) }
{
    let mut slots = empty::<J>(alloc, n)?;
    fill(jobs, n, &mut slots, pairs);
    take_all(alloc, jobs, slots)
}

// A place without a result for each of so many jobs.
fn empty<J: RoomedJob>(alloc: Global, n: u32) -> Result<Vec<Option<J::Done>>, NoMemory>
    ensures { IfOk result (λ v. vec_len v ≡ n) }
{
    let mut slots = Vec::new(alloc);
    for _ in 0..n {
        slots.push(None)?;
    }
    Ok(slots)
}

// Puts each result at the place of its job's number.
fn fill<J: RoomedJob>(
    jobs: &J,
    n: u32,
    slots: &mut Vec<Option<J::Done>>,
    mut pairs: Vec<(u32, J::Done)>,
)
    requires len { vec_len slots.old ≡ n }
    requires once { EachOnceBelow n (numbers pairs.items) }
    requires gives { All (λ p. J.gives jobs.now p.0 p.1) pairs.items }
    ensures len { vec_len slots.new ≡ n }
    ensures full { IsFull (J.gives jobs.now) slots.new.items }
{
    while let Some((k, done)) = pairs.pop() {
        slots[k as usize] = Some(done);
    }
}

// The results of all places.
fn take_all<J: RoomedJob>(
    alloc: Global,
    jobs: &J,
    mut slots: Vec<Option<J::Done>>,
) -> Result<Vec<J::Done>, NoMemory>
    requires { IsFull (J.gives jobs.now) slots.items }
    ensures len { IfOk result (λ v. vec_len v ≡ vec_len slots) }
    ensures each { IfOk result (λ v. (k : ℕ) (d : _) → k < vec_len slots
        → J.gives jobs.now k (slice_index_or v.items k d)) }
{
    let mut all = Vec::new(alloc);
    for i in 0..slots.len() {
        if let Some(done) = slots[i].take() {
            all.push(done)?;
        }
    }
    Ok(all)
}
