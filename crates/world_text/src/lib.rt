// The world file: JSON to a world, and back.
#![tactic(auto)]

mod build;
mod draft;
mod file;
mod keys;
mod objects;
mod players;
mod read;
mod rooms;
mod text;
mod tokens;
mod values;
mod write;

pub use read::{WorldFile, read_world};
pub use text::Text;
pub use tokens::Tokens;
pub use world_form::{Field, WorldFault};
pub use write::write_world;
