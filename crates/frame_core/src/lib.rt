//! What one rendering of an instance makes, and what a batch says of it: edits of the trees of components, the nodes that they
//! put in, and the components and handlers that go.
//!
//! Items and batches are plain data. By its type a batch has fewer than 2^32 edits, each with what it puts in or sets, so that no
//! edit can lack its nodes and no node can lack its edit. What the edits make of a tree is not said here, nor how a batch lies in
//! bytes, nor which edits lead from the items of one rendering to those of the next.
#![tactic(auto)]

mod batch;
mod edit;
mod item;
mod item_attribute;
mod made;
mod wire_node;

pub use batch::{Batch, EditList};
pub use edit::Edit;
pub use item::{Item, ItemParameter};
pub use item_attribute::{ItemAttribute, ItemHandler, ItemValue};
pub use made::Made;
pub use wire_node::{WireAttribute, WireNode, WireValue};
