//! The files that the program takes so far: the component that a file spells, and the nodes that it shows.
//!
//! `read` answers the component that a file spells by the first-click form (docs/DEFINITIONS.md), or that it spells none;
//! a file spells at most one, whose items weigh at most 1,000,000. `fresh_nodes` makes the nodes of the fresh rendering over
//! fields with their present values. The contracts don't say where a file leaves the form, nor why. What the code of methods
//! means is said by the crate that runs it; the lemmas in proofs/FormLemmas.antt say which code that can be.
#![tactic(auto)]

mod characters;
mod code;
mod component;
mod content;
mod expressions;
mod file_name;
mod laws;
mod members;
mod names;
mod nesting;
mod parts;
mod pieces;
mod reader;
mod rendering;
mod statements;
mod stop;
mod tokens;

pub use component::{Component, Field, Item, Method};
pub use laws::a_file_spells_one_component;
pub use reader::read;
pub use rendering::{fresh_node, fresh_nodes};
