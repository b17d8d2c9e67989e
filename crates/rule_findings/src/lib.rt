//! The first of the rules that a file breaks, as they are found.
//!
//! The contract of each call says that what is kept is the first of what was found before and of what is found now, so that in
//! whatever order a file is looked at, the first of all its broken rules is told.
#![tactic(auto)]

mod findings;
mod names;

pub use findings::Findings;
pub use names::{Name, is_among, repeated, repeated_behind};
pub use razor_rules::Broken;
