//! Tests of the walk, through the browser's tree.
//!
//! The crate has no function of its own and promises nothing. What the tests expect was worked out by hand.
#![tactic(auto)]

#[cfg(test)]
mod items;
#[cfg(test)]
mod page;
#[cfg(test)]
mod walking;
