// Tests of sessions by the public calls, over links in memory.
#![tactic(auto)]

#[cfg(test)]
mod cut_tests;
#[cfg(test)]
mod plays;
#[cfg(test)]
mod reply_tests;
#[cfg(test)]
mod request_tests;
