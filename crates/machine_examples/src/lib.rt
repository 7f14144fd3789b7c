// Whole modules of another assembler, run with a host that writes down what it gets: examples of each
// instruction,
// each trap and each limit, which are tests alone.
#![tactic(auto)]

#[cfg(test)]
mod calls;
#[cfg(test)]
mod control;
#[cfg(test)]
mod host_calls;
#[cfg(test)]
mod indirect_calls;
#[cfg(test)]
mod limits;
#[cfg(test)]
mod links;
#[cfg(test)]
mod long_modules;
#[cfg(test)]
mod memory;
#[cfg(test)]
mod number_traps;
#[cfg(test)]
mod numbers32;
#[cfg(test)]
mod numbers64;
#[cfg(test)]
mod recorder;
#[cfg(test)]
mod rows;
#[cfg(test)]
mod starts;
#[cfg(test)]
mod variables;
