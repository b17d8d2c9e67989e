//! Prints C# trees: expressions, lambdas, statements and members.
//!
//! The contract of each public call gives the printed text exactly, by the definitions of `specs/`: the tokens of the tree, with
//! brackets only where a part holds less tightly than its place asks, and a blank behind each token. For a tree that some text
//! spells, the printed text spells a tree that is equal to it, apart from places. The contracts do not say that memory is found, nor
//! how deeply the printed tokens nest.
#![tactic(auto)]

mod expressions;
mod labels;
mod lists;
mod members;
mod operators;
mod print;
mod statements;
mod tokens;
mod types;

pub use expressions::{push_at, push_whole};
pub use labels::push_labels;
pub use lists::push_statements;
pub use members::push_members;
pub use print::{print_expression, print_members, print_statements};
pub use statements::{push_in_round, push_optional, push_statement};
pub use tokens::{push_name, push_sign, push_word};
