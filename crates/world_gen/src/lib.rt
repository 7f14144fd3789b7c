// A world and its players' uploads, made from a number.
#![tactic(auto)]

mod code;
mod draws;
mod ground;
mod player;
mod rooms;
mod stream;
mod whole;
mod worlds;

pub use std::alloc::AllocError as NoMemory;
pub use stream::generate_uploads;
pub use whole::player_module;
pub use worlds::generate;
