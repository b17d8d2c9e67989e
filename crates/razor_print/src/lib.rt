//! Prints Razor components.
//!
//! The contracts give the printed text exactly, by the definitions of `specs/`: the parts of the component, one behind another, each
//! with the characters that it is written in. They do not say that memory is found, nor that the text spells the component again.
#![tactic(auto)]

mod attributes;
mod before;
mod component;
mod heads;
mod nodes;
mod parts;
mod quotes;
mod value_texts;
mod values;

pub use before::Before;
pub use component::push_component;
