//! Tests of the page and of the lines of frames that items come to.
//!
//! The crate has no function of its own and promises nothing. What the tests expect was worked out by hand.
#![tactic(auto)]

#[cfg(test)]
mod items;
#[cfg(test)]
mod shown;
