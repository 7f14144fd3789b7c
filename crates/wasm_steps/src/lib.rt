// The steps of WebAssembly Core 1.0, chapter 4, with what they cost: definitions, and the law that a run has
// one end.
#![tactic(auto)]

mod host;
mod laws;
mod outcome;

pub use host::Host;
pub use laws::runs_have_one_end;
pub use outcome::{Outcome, Trap};
