//! Tests of schedules, read and played.
//!
//! The crate has no function of its own and promises nothing. What the tests expect was written by hand.
#![tactic(auto)]

#[cfg(test)]
mod playing;
#[cfg(test)]
mod reading;
