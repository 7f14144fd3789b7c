// The tick of one room by itself, and the tick of a world made of the ticks of its rooms.
#![tactic(auto)]

mod accounts;
mod laws;
mod rooms;
mod step;
mod steppers;

pub use laws::{a_step_is_the_room_alone, one_player_gains};
pub use rooms::{all_intents, next_world};
pub use std::alloc::AllocError as NoMemory;
pub use step::{Crossers, StepDone, step_room, step_taken};
pub use steppers::{InTurn, SteppedRoom, StepsRooms};
