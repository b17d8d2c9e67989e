//! The lines that are written of a program of one component that stands alone: its first page, or the frames of its first
//! rendering, or the fault that ends this.
//!
//! The contracts say which lines these are, exactly, by the definitions of the page and of the items of a component with its names;
//! or that there are none, exactly where the component's code breaks a rule where it stands or is stuck. That a program which breaks
//! none of the rules of programs comes to neither is said elsewhere (`alone_pages`). That memory is found is not said.
#![tactic(auto)]

mod fault;
mod lines;

pub use lines::{frame_lines, page_lines};
