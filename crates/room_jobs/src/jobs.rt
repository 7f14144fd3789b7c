// Steps of rooms as a row of jobs.
ghost use Rattle.std.specs.Prelude.{◌≡◌, ◌<◌, ◌^◌, length, IfOk};
ghost use Rattle.room_jobs.specs.RoomJobs.{IsStepDone};
ghost use Rattle.room_step.specs.Steps.{MayBeStepped};

use intent_book::Intents;
use object_store::Room;
use room_step::{StepDone, step_room};
use room_workers::{Job, NoMemory};
use std::alloc::Global;

/// The steps of these rooms, each by its list of entries. The rooms are lent, and each step is made on a copy
/// of its table.
#[derive(Clone, Copy)]
pub(crate) struct RoomJobs<'a> {
    pub rooms: &'a [Room],
    pub lists: &'a [Intents],
    pub count: u32,
    pub ghost may: { MayBeStepped rooms.now lists.now },
    pub ghost counted: { count ≡ length rooms.now },
}

impl<'a> Job for RoomJobs<'a> {
    ghost use Rattle.room_jobs.specs.RoomJobs.{IsStepDone};

    type Done = StepDone;

    ghost size = { λ jobs. jobs.count };

    ghost gives = { λ jobs k done. IsStepDone jobs.rooms.now jobs.lists.now k done };

    fn count(&self) -> u32 {
        self.count
    }

    fn run(&self, alloc: Global, k: u32) -> Result<StepDone, NoMemory> {
        let room = &self.rooms[k as usize];
        step_room(
            alloc,
            k,
            &room.terrain,
            &room.table,
            self.lists[k as usize].as_slice(),
        )
    }
}
