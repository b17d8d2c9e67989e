//! Tests of the evaluator, over code of all forms.
//!
//! The crate has no function of its own and promises nothing. What the tests expect was worked out by hand.
#![tactic(auto)]

#[cfg(test)]
mod building;
#[cfg(test)]
mod first_forms;
#[cfg(test)]
mod running;
