//! What the two ends of a circuit do, as definitions over whole histories: the server's circuit and the browser.
//!
//! There is no code here but the plain data that the definitions share with the code of both ends. A circuit's state
//! keeps every batch that was ever made and the outcome of every event that was taken; a browser's keeps its tree. The
//! steps are relations over any stage and over any meaning of batches. What the code of an end must do is said there, by
//! a relation of its own between the code's value and these states.
#![tactic(auto)]

mod browser;
mod circuit;

pub use browser::{BrowserStatus, CircuitKey, UnansweredEvent};
pub use circuit::{CircuitStatus, Rule};
