// Who steps the rooms of a world.
ghost use Rattle.std.specs.Prelude.{IfOk};
ghost use Rattle.room_step.specs.Steps.{AreStepped, MayBeStepped};

use crate::NoMemory;
use crate::step::{StepDone, step_taken};
use intent_book::Intents;
use object_store::Room;
use room_terrain::{RoomName, Terrain};
use std::alloc::Global;

/// A room that was stepped: its name and its ground, and what the step left.
#[derive(Drop)]
pub struct SteppedRoom {
    pub name: RoomName,
    pub terrain: Terrain,
    pub done: StepDone,
}

/// Who steps all rooms of a world, each once, in whatever order.
pub trait StepsRooms {
    // What the steps ask of what they are made with.
    ghost ready: { Self → Type 0 };

    /// Steps each room by its list of entries. The step of a room stands at its place.
    fn step_rooms(
        &self,
        alloc: Global,
        rooms: Vec<Room>,
        lists: &[Intents],
    ) -> Result<Vec<SteppedRoom>, NoMemory>
        requires ready { ready self.now }
        requires rooms { MayBeStepped rooms.items lists.now }
        ensures { IfOk result (λ stepped. AreStepped lists.now rooms.items stepped.items) };
}

/// One room after the other, in rising index. A table is copied only where it has not as much memory as its
/// entries and the steps may need.
#[derive(Clone, Copy)]
pub struct InTurn;

impl StepsRooms for InTurn {
    ghost ready = { λ s. Unit {0} };

    fn step_rooms(
        &self,
        alloc: Global,
        rooms: Vec<Room>,
        lists: &[Intents],
    ) -> Result<Vec<SteppedRoom>, NoMemory> {
        let mut stepped = Vec::with_capacity(alloc, rooms.len())?;
        for room in rooms {
            let index: usize = stepped.len();
            let Room {
                name,
                terrain,
                table,
            } = room;
            let done = step_taken(alloc, &terrain, table, lists[index].as_slice())?;
            stepped.push(SteppedRoom {
                name,
                terrain,
                done,
            })?;
        }
        Ok(stepped)
    }
}
