// Tests of boards and workers by their public calls.
#![tactic(auto)]

#[cfg(test)]
mod board_tests;
#[cfg(test)]
mod worker_tests;
