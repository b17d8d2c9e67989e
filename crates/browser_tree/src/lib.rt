//! The tree that a browser holds, and what batches make of it.
//!
//! The contract of `apply_batch` says what the tree is after it, exactly, and which fault of which edit is answered; after a fault
//! the tree is as it was. `page` is the page that the tree shows. It is not said that memory is found.
#![tactic(auto)]

mod browser;
mod component_tree;
mod copying;
mod counting;
mod edits;
mod focus;
mod lists;
mod making;
mod names;
mod nodes;
mod permutation;
mod showing;

pub use browser::Browser;
