//! What a compiler of templates makes of their parts, before it goes from node to node.
//!
//! The code of expressions and statements with what they declare, the bodies of members and lambdas under their numbers, the locals
//! that lambdas and fragments use, and what attributes, the tags of components, fields and parameters come to. The contract of each
//! call says that its answer means what the part comes to, or is the first rule that it breaks; a call fails besides for want of
//! memory or of numbers alone. The order of nodes, whole components and programs are for the layer above.
#![tactic(auto)]

pub mod attributes;
pub mod bodies;
pub mod bound;
pub mod callbacks;
pub mod captures;
pub mod fields;
pub mod forms;
pub mod fragments;
pub mod gifts;
pub mod keys;
pub mod making;
pub mod names;
pub mod scopes;
pub mod site;
pub mod targets;
pub mod values;
