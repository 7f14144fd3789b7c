// Jobs that workers draw and do.
ghost use Rattle.std.specs.Prelude.{◌≡◌, ℕ, ◌<◌, ◌≤◌, ◌^◌, length, slice_index_or, vec_len, IfOk};

use claim_board::Board;
use room_workers::{Job, NoMemory, RoomedJob, claimed_map, claimed_map_in};
use std::alloc::Global;
use std::sync::atomic::{AtomicU64, Ordering};
use std::test::*;
use std::thread;
use std::thread::Threads;
use world_io::{Gate, OpenGate};

// The squares of the numbers below `count`.
#[derive(Drop)]
struct Squares {
    count: u32,
}

impl Job for Squares {
    ghost use Rattle.std.specs.Prelude.{◌≡◌, ◌*◌};

    type Done = u64;

    ghost size = { λ s. s.count };

    ghost gives = { λ s k d. d ≡ k * k };

    fn count(&self) -> u32 {
        self.count
    }

    fn run(&self, _alloc: Global, k: u32) -> Result<u64, NoMemory> {
        Ok(u64::from(k) * u64::from(k))
    }
}

// Holds job 0 until job 1 has begun, and counts the jobs that pass.
#[derive(Drop)]
struct Holds {
    begun: AtomicU64,
    held_out: AtomicU64,
    passed: AtomicU64,
}

impl Gate for Holds {
    fn pass(&self, _worker: u32, k: u32) {
        self.passed.fetch_add(1, Ordering::SeqCst);
        if k == 1 {
            self.begun.store(1, Ordering::SeqCst);
        }
        if k == 0 {
            for _ in 0..10_000_000 {
                if self.begun.load(Ordering::SeqCst) == 1 {
                    return;
                }
                thread::yield_now();
            }
            self.held_out.store(1, Ordering::SeqCst);
        }
    }
}

#[test]
fn a_job_is_held_until_another_worker_has_begun(rt: HostRuntime) -> Result<(), Fail> {
    let jobs = Squares { count: 100 };
    let gate = Holds {
        begun: AtomicU64::new(0),
        held_out: AtomicU64::new(0),
        passed: AtomicU64::new(0),
    };
    let (board, seats) = Board::new(rt.alloc(), 100, 3)?;
    let (squares, _seat) = claimed_map(&rt, rt.alloc(), &jobs, &board, seats, &gate)?;
    assert_eq!(rt; squares.len(), 100);
    assert_eq!(rt; (squares[0], squares[7], squares[99]), (0, 49, 9801));
    assert_eq!(rt; gate.held_out.load(Ordering::SeqCst), 0);
    assert_eq!(rt; gate.passed.load(Ordering::SeqCst), 100);
    Ok(())
}

// A copy of each name.
#[derive(Drop)]
struct CopyJobs<'a> {
    names: &'a [Vec<u8>],
    count: u32,
    ghost counted: { count ≡ length names.now },
}

impl<'a> Job for CopyJobs<'a> {
    type Done = Vec<u8>;

    ghost size = { λ s. s.count };

    ghost gives = { λ s k done. (d : _) → done.items ≡ (slice_index_or s.names.now k d).items };

    fn count(&self) -> u32 {
        self.count
    }

    fn run(&self, alloc: Global, k: u32) -> Result<Vec<u8>, NoMemory> {
        Vec::from_clones(alloc, self.names[k as usize].as_slice())
    }
}

// A copy of each, by as many workers as said.
fn copies<R: Threads + Sync>(
    rt: &R,
    alloc: Global,
    names: &[Vec<u8>],
    workers: u32,
) -> Result<Vec<Vec<u8>>, NoMemory>
    requires { (length names.now < 2 ^ 32) × (0 < workers) × (workers ≤ 16) }
    ensures { IfOk result (λ v. (vec_len v ≡ length names.now) × ((k : ℕ) (d e : _) → k < length names.now
        → (slice_index_or v.items k d).items ≡ (slice_index_or names.now k e).items)) }
{
    let jobs = CopyJobs {
        names,
        count: names.len() as u32,
    };
    let (board, seats) = Board::new(alloc, jobs.count, workers)?;
    let (copies, _seat) = claimed_map(rt, alloc, &jobs, &board, seats, &OpenGate)?;
    Ok(copies)
}

#[test]
fn each_result_stands_at_its_place(rt: HostRuntime) -> Result<(), Fail> {
    let alloc = rt.alloc();
    let names = vec![in alloc; vec![in alloc; 7, 8]?, vec![in alloc]?, vec![in alloc; 9]?]?;
    let one = copies(&rt, alloc, &names, 1)?;
    assert_eq!(rt; one, names);
    let two = copies(&rt, alloc, &names, 2)?;
    assert_eq!(rt; two, names);
    let sixteen = copies(&rt, alloc, &names, 16)?;
    assert_eq!(rt; sixteen, names);
    assert_eq!(rt; copies(&rt, alloc, &[], 16)?.len(), 0);
    Ok(())
}

// Jobs of which each says how many its worker did before it in its room.
#[derive(Drop)]
struct Turns {
    count: u32,
}

impl RoomedJob for Turns {
    ghost use Rattle.std.specs.Prelude.{◌≡◌};

    type Room = u64;

    type Done = u64;

    ghost ready = { λ t. Unit {0} };

    ghost size = { λ t. t.count };

    ghost gives = { λ t k d. Unit {0} };

    fn count(&self) -> u32 {
        self.count
    }

    fn room(&self, _alloc: Global) -> Result<u64, NoMemory> {
        Ok(0)
    }

    fn run(&self, _alloc: Global, room: &mut u64, _k: u32) -> Result<u64, NoMemory> {
        let before = *room;
        *room = before.saturating_add(1);
        Ok(before)
    }
}

#[test]
fn a_worker_makes_one_room(rt: HostRuntime) -> Result<(), Fail> {
    let (board, seats) = Board::new(rt.alloc(), 5, 1)?;
    let (turns, _seat) = claimed_map_in(
        &rt,
        rt.alloc(),
        &Turns { count: 5 },
        &board,
        seats,
        &OpenGate,
    )?;
    let wanted = vec![in rt.alloc(); 0_u64, 1, 2, 3, 4]?;
    assert_eq!(rt; turns, wanted);
    Ok(())
}
