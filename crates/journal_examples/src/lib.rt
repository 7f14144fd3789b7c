// Records of ticks, the journals that keep them, and worlds that go on from them, with memory at hand:
// examples that are tests alone. They stand in a crate of their own, so that the calls are not proved once
// more for them.
#![tactic(auto)]

#[cfg(test)]
mod follow_tests;
#[cfg(test)]
mod followed;
#[cfg(test)]
mod journal_tests;
#[cfg(test)]
mod journals;
#[cfg(test)]
mod record_tests;
#[cfg(test)]
mod restored_tests;
#[cfg(test)]
mod stop_tests;
#[cfg(test)]
mod worlds;
