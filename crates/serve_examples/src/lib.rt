// Tests of served ticks by the public calls, over a disk in memory and a hub.
#![tactic(auto)]

#[cfg(test)]
mod serving;
#[cfg(test)]
mod shared_tests;
#[cfg(test)]
mod tick_tests;
