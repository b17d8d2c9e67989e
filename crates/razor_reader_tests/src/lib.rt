//! Tests of what Razor files are read as, and of why they are not.
//!
//! The crate has no function of its own and promises nothing. What the tests expect was written by hand.
#![tactic(auto)]

#[cfg(test)]
mod attribute;
#[cfg(test)]
mod code;
#[cfg(test)]
mod content;
#[cfg(test)]
mod faults;
#[cfg(test)]
mod forms;
#[cfg(test)]
mod outline;
#[cfg(test)]
mod support;
