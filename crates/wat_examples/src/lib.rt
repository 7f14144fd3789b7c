// The tokens and the numbers of module texts, by calls of their readers: tests alone.
#![tactic(auto)]

#[cfg(test)]
mod number_tests;
#[cfg(test)]
mod token_tests;
#[cfg(test)]
mod word_tests;
