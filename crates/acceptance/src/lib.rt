//! Tests of whole runs of the program, over files and sinks in memory.
//!
//! The crate has no function of its own and promises nothing. What the tests expect was written by hand.
#![tactic(auto)]

#[cfg(test)]
mod checks;
#[cfg(test)]
mod faults;
#[cfg(test)]
mod forms;
#[cfg(test)]
mod frames;
#[cfg(test)]
mod limits;
#[cfg(test)]
mod pages;
#[cfg(test)]
mod refusals;
#[cfg(test)]
mod replays;
#[cfg(test)]
mod support;
#[cfg(test)]
mod words;
