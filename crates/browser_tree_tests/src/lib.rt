//! Tests of the browser's tree.
//!
//! The crate has no function of its own and promises nothing. What the tests expect was worked out by hand.
#![tactic(auto)]

#[cfg(test)]
mod applying;
#[cfg(test)]
mod script;
