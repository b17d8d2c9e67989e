//! Pages: trees of elements, texts and markup, how they print, which node a path names, and what is said of a batch
//! of edits to one: its counts, or why it is refused.
//!
//! The contracts say which characters a page prints, exactly: which characters of texts and values are escaped, in
//! which order attributes stand, and which elements have no end tag. They do not say how a browser lays a page out,
//! nor that names and raw markup are well formed.
#![tactic(auto)]

mod by_name;
mod counts;
mod escape;
mod faults;
mod node;
mod path;
mod printing;
mod void;

pub use by_name::{Attributes, ByName, HandlerIds, copy_attributes, copy_handlers};
pub use counts::Counts;
pub use faults::{ApplyFault, BatchFault};
pub use node::{Node, Page};
pub use path::at;
pub use printing::print;
pub use void::is_void;
