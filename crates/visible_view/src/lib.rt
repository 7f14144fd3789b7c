// What a player sees of the world.
#![tactic(auto)]

mod field;
mod gather;
mod listed;
mod view;

pub use std::alloc::AllocError as NoMemory;
pub use view::View;
