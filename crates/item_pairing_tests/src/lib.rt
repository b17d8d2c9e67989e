//! Tests of slots and pairs.
//!
//! The crate has no function of its own and promises nothing. What the tests expect was worked out by hand.
#![tactic(auto)]

#[cfg(test)]
mod lists;
#[cfg(test)]
mod pairs;
