//! Tests of the cutter of C# text.
//!
//! The crate has no function of its own and promises nothing. What the tests expect was written by hand.
#![tactic(auto)]

#[cfg(test)]
mod tokens;
#[cfg(test)]
mod words;
