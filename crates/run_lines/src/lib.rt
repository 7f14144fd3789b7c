// The lines that a run prints.
#![tactic(auto)]

mod lines;
mod pieces;
mod uploads;

pub use lines::{NoMemory, later_lines, object_count, start_line, total_energy};
pub use uploads::print_uploads;
