//! The smallest stage and the smallest screen, over one kind of tree: a button that counts its clicks.
//!
//! They show that the laws of stages and screens can be met, and serve the tests of the two ends of a circuit: the
//! number that is shown tells how often a click acted. Each batch is the number, as one byte; the button's handler of
//! `onclick` has the id 1, other events come to nothing, and a click at 255 is a fault.
#![tactic(auto)]

mod printing;
mod screen;
mod stage;
mod tree;

pub use screen::CounterScreen;
pub use stage::{CounterStage, CounterState};
pub use tree::CounterTree;
