//! Which types C# code and its values have, and why code with types is never stuck.
//!
//! The types are those of `cs_ast`. `specs/` says which values have a type, which expressions have a type over locals of given
//! types, and where statements may stand, one rule a form. The contracts of the laws say: where all that code is run with keeps to
//! the types, the code is not stuck, what it gives has its type, and fields, parameters, locals and receivers keep to theirs.
//! They don't say which C# text has code with types, and nothing here runs.
#![tactic(auto)]

mod laws;

pub use laws::{
    typed_bodies_are_never_stuck, typed_expressions_are_never_stuck,
    typed_statements_are_never_stuck, values_keep_their_types_among_more_instances,
};
