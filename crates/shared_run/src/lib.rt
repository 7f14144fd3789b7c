// Runs of ticks, whose players and rooms several workers draw.
#![tactic(auto)]

mod run;

pub use run::run_shared;
