//! Reads C# tokens as the one tree that they spell: an expression or a lambda, the statements of a body, or members.
//!
//! The contracts say when there is a tree, which one it is, and why there is none: the tokens spell nothing, or they
//! nest more than 200 deep, at the first such place. That memory is found is not said.
#![tactic(auto)]

mod depth;
mod expressions;
mod fault;
mod lambdas;
mod making;
mod member;
mod statement;
mod tables;
mod tokens;
mod types;
mod unread;
mod whole;
mod whole_expressions;
mod whole_members;
mod whole_statements;

pub use fault::ParseFault;
pub use whole_expressions::{expression, tokens_spell_one_expression};
pub use whole_members::{members, tokens_spell_one_member_list};
pub use whole_statements::{statements, tokens_spell_one_body};
