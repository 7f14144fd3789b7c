// Workers who step the rooms of a world.
ghost use Rattle.std.specs.Prelude.{◌≡◌, ◌<◌, ◌≤◌, ◌^◌, ℕ, length, slice_index_or, IfOk};
ghost use Rattle.room_step.specs.declared.step.StepDone.{StepDone};
ghost use Rattle.room_step.specs.Steps.{AreStepped, MayBeStepped};
ghost use Rattle.room_jobs.specs.RoomJobs.{IsStepDone};

use crate::steps::steps_by_workers;
use intent_book::Intents;
use object_store::Room;
use room_step::{InTurn, StepDone, SteppedRoom, StepsRooms};
use room_workers::NoMemory;
use std::alloc::Global;
use std::thread::Threads;
use world_io::Gate;

/// Who steps rooms as a closure does.
#[derive(Clone, Copy)]
pub struct StepsBy<'a, F> {
    pub steps: &'a F,
}

impl<'a, F: Fn(Global, Vec<Room>, &[Intents]) -> Result<Vec<SteppedRoom>, NoMemory>> StepsRooms
    for StepsBy<'a, F> {
    ghost use Rattle.std.specs.Prelude.{IfOk};
    ghost use Rattle.room_step.specs.Steps.{AreStepped, MayBeStepped};

    ghost ready = { λ by. (alloc : _) (rooms : _) (lists : _) → MayBeStepped rooms.items lists.now
        → F.pre by.steps.now alloc rooms lists
        × ((r : _) → F.post by.steps.now alloc rooms lists r
        → IfOk r (λ stepped. AreStepped lists.now rooms.items stepped.items)) };

    fn step_rooms(
        &self,
        alloc: Global,
        rooms: Vec<Room>,
        lists: &[Intents],
    ) -> Result<Vec<SteppedRoom>, NoMemory> {
        (self.steps)(alloc, rooms, lists)
    }
}

/// Steps each room once, by so many workers, who draw from a board. Each step is made on a copy of its room's
/// table, in its worker; a room that is the only one is stepped in its place, by the caller.
pub fn stepped_by_workers<R: Threads + Sync, G: Gate + Sync>(
    rt: &R,
    alloc: Global,
    rooms: Vec<Room>,
    lists: &[Intents],
    gate: &G,
    workers: u32,
) -> Result<Vec<SteppedRoom>, NoMemory>
    requires some { (0 < workers) × (workers ≤ 16) }
    requires rooms { MayBeStepped rooms.items lists.now }
    ensures { IfOk result (λ stepped. AreStepped lists.now rooms.items stepped.items) }
{
    if rooms.len() == 1 {
        gate.pass(0, 0);
        return InTurn.step_rooms(alloc, rooms, lists);
    }
    let done = steps_by_workers(rt, alloc, &rooms, lists, gate, workers)?;
    beside(alloc, rooms, done, lists)
}

// The rooms with the steps that were made of them; the tables that they had are let go.
fn beside(
    alloc: Global,
    rooms: Vec<Room>,
    done: Vec<StepDone>,
    lists: &[Intents],
) -> Result<Vec<SteppedRoom>, NoMemory>
    requires many { length done.items ≡ length rooms.items }
    requires each { (k : ℕ) (default : StepDone) → k < length rooms.items
        → IsStepDone rooms.items lists.now k (slice_index_or done.items k default) }
    ensures { IfOk result (λ stepped. AreStepped lists.now rooms.items stepped.items) }
{
    let mut stepped = Vec::new(alloc);
    let mut left = done.into_iter();
    for room in rooms {
        let Room {
            name,
            terrain,
            table: _,
        } = room;
        let Some(done) = left.next() else {
            unreachable!()
        };
        stepped.push(SteppedRoom {
            name,
            terrain,
            done,
        })?;
    }
    Ok(stepped)
}
