//! What a batch makes of the tree that a browser holds.
//!
//! There are types and definitions alone here: the tree, what each edit makes of it, the first fault that one has, how many edits
//! of each kind there are, and the page that a tree shows. What makes edits and what does them both cite these.
#![tactic(auto)]

mod browser_node;
mod entry;
mod level;
mod names;

pub use browser_node::BrowserNode;
pub use entry::Entry;
pub use level::Level;
pub use names::Names;
