// The hub between the sessions and the ticks: a queue of uploads, and the summary that was published last.
#![tactic(auto)]

mod hub;
mod queue;
mod status;
mod summary;
mod turns;

pub use hub::{Hub, NoMemory, PLACES, Pass, Ticker};
pub use queue::Upload;
pub use summary::{LINES, PlayerLine, Summary};
