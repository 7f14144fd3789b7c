// Views, runs of players and ticks of rooms by calls that the built program doesn't make: examples that are
// tests alone. They stand in a crate of their own, so that the calls are not proved once more for them.
#![tactic(auto)]

#[cfg(test)]
mod player_tests;
#[cfg(test)]
mod shared_room_tests;
#[cfg(test)]
mod tick_tests;
#[cfg(test)]
mod view_tests;
#[cfg(test)]
mod worlds;
