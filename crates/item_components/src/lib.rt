//! Which component items of two renderings are of one component, and which come and go.
//!
//! The contract of `retained` says that its answer has exactly the component items that pair, also within elements that pair, and
//! those of `made` and `disposed` that theirs are the others, in their order. Items are named by their order among the component
//! items of their rendering. Nothing is said of what becomes of a component, nor that memory is found.
#![tactic(auto)]

mod orders;
mod others;
mod staying;

pub use others::{disposed, made};
pub use staying::retained;
