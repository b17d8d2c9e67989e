//! The trees of Razor components, and the grammar that says which text spells which component.
//!
//! There are types and definitions alone here, which the contracts of the crates above cite. The grammar is a relation between the
//! pieces of a text and a tree, form by form; a tree keeps the number of each part that makes something, and the place of each
//! part that a rule may name. That a text spells at most one component is proved where it is read.
#![tactic(auto)]

mod attribute;
mod component;
mod node;

pub use attribute::{Attribute, AttributeKind, Given, ValuePart};
pub use component::Component;
pub use node::{TNode, TSection};
