// The stream of uploads that a run is given.
#![tactic(auto)]

mod entry;
mod fault;
mod laws;
mod uploads;

pub use entry::{Upload, most_module_bytes};
pub use fault::BadEntry;
pub use laws::stream_is_judged_once;
pub use uploads::Uploads;
