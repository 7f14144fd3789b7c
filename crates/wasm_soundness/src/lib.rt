// What a typed module keeps as it runs: each instruction finds its operands, and leaves a typed thread.
#![tactic(auto)]

mod laws;

pub use laws::typing_is_kept;
