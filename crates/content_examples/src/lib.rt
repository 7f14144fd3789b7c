// The bytes and texts that are kept of worlds, written and read with memory at hand: examples that are tests
// alone. They stand in a crate of their own, so that the calls are not proved once more for them.
#![tactic(auto)]

#[cfg(test)]
mod base_tests;
#[cfg(test)]
mod bytes_tests;
#[cfg(test)]
mod content_tests;
#[cfg(test)]
mod log_tests;
#[cfg(test)]
mod made_tests;
#[cfg(test)]
mod rules_tests;
#[cfg(test)]
mod text_tests;
#[cfg(test)]
mod worlds;
