//! What a template makes once its code is resolved: what each form of content, attributes and tags draws, in which order and at
//! which cost, and with which fault.
//!
//! There are definitions alone here, over code with numbers, and plain data. What a template says, and what an operation
//! says, are both defined by these acts. Nothing here runs.
#![tactic(auto)]

mod fault;
mod output;

pub use fault::PageFault;
pub use output::{Dress, Gifts, Output};
