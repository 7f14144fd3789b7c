// Tests of links, doors and paces over sockets by their public calls.
#![tactic(auto)]

#[cfg(test)]
mod odd;
#[cfg(test)]
mod odd_tests;
#[cfg(test)]
mod socket_tests;
