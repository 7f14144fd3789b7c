// Tests of the hub by its public calls, from several threads.
#![tactic(auto)]

#[cfg(test)]
mod beside;
#[cfg(test)]
mod hub_tests;
