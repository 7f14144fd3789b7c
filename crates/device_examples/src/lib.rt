// Calls over devices in memory that fail, runs by two workers, and adapters over files, of which no clause
// tells: examples that are tests alone. They stand in a crate of their own, so that the calls are not proved
// once more for them.
#![tactic(auto)]

#[cfg(test)]
mod device_tests;
#[cfg(test)]
mod disk_tests;
#[cfg(test)]
mod failing_tests;
#[cfg(test)]
mod file_tests;
#[cfg(test)]
mod shared_tests;
