// The plain instructions of WebAssembly Core 1.0, chapters 4.4.1 to 4.4.4: numbers, variables and memory.
#![tactic(auto)]

mod memories;
mod numbers;
mod parametric;
mod pushes;
mod variables;

pub use memories::{load, memory_grow, memory_size, store};
pub use numbers::{i32_const, i64_const, numeric};
pub use parametric::{drop_value, select};
pub use variables::{global_get, global_set, local_get, local_set, local_tee};
