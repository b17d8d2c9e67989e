//! Tests of renderings, over operations of all forms.
//!
//! The crate has no function of its own and promises nothing. What the tests expect was worked out by hand.
#![tactic(auto)]

#[cfg(test)]
mod building;
#[cfg(test)]
mod drawing;
#[cfg(test)]
mod sketch;
