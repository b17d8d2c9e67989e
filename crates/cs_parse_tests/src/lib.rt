//! Tests of the reader of C# code.
//!
//! The crate has no function of its own and promises nothing. What the tests expect was written by hand.
#![tactic(auto)]

#[cfg(test)]
mod expressions;
#[cfg(test)]
mod lambdas;
#[cfg(test)]
mod members;
#[cfg(test)]
mod reading;
#[cfg(test)]
mod statements;
#[cfg(test)]
mod words;
