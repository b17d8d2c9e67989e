//! The edits that lead from one list of items to another.
//!
//! The contract of `edits_of` says that the edits make of whatever nodes show the old items those that the new items have by their
//! pairs, where the node of a pair keeps its birth, and that they are as many of each kind as the sums over the pairs say; so where
//! nothing changes there is no edit. It asks for fewer than 2^31 items in each list, and that no element has two attributes of one
//! name, which is exactly what `fits` tells. It does not say that memory is found, nor how long it takes.
#![tactic(auto)]

mod arranged;
mod changes;
mod fitting;
mod names;
mod sizing;
mod wires;

pub use changes::edits_of;
pub use fitting::fits;
