// The crates that stand lowest, with memory at hand: examples that are tests alone. They stand in a crate of
// their own, so that the calls are not proved once more for them.
#![tactic(auto)]

#[cfg(test)]
mod box_tests;
#[cfg(test)]
mod bytes_tests;
#[cfg(test)]
mod frame_tests;
#[cfg(test)]
mod number_tests;
#[cfg(test)]
mod store_tests;
#[cfg(test)]
mod table_tests;
#[cfg(test)]
mod terrain_tests;
#[cfg(test)]
mod words_tests;
