//! Tests of which components can be rendered by themselves.
//!
//! The crate has no function of its own and promises nothing. What the tests expect was written by hand.
#![tactic(auto)]

#[cfg(test)]
mod components;
