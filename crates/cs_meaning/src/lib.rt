//! What code means: definitions alone, which the checker, the evaluator and what is above them cite.
//!
//! From an instance, its program and a state, code gives a value with a new state, leaves what is round it, meets one fault,
//! or is stuck: a function by recursion on the code, on the calls that may still be inside one another, and on the units
//! left. Nothing here runs.
#![tactic(auto)]

mod fault;
mod fuel;

pub use fault::Fault;
pub use fuel::Fuel;
