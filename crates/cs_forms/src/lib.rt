//! What each form of C# code comes to, by what its parts came to: names, types, operators, members of the library,
//! arguments, labels.
//!
//! Each call answers what the rules say of it, or the first broken rule with its place. Nothing here goes down a tree of
//! expressions or statements: that is for the checker above, which calls these form by form.
#![tactic(auto)]

pub mod allowing;
pub mod arguments;
pub mod callees;
pub mod calls;
pub mod comparing;
pub mod fault;
pub mod joining;
pub mod labels;
pub mod leaves;
pub mod library;
pub mod members;
pub mod names;
pub mod operators;
pub mod types;
pub mod written;

pub use fault::CheckFault;
