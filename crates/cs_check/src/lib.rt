//! Checks C# code against the rules of its names and types, and turns names into numbers.
//!
//! [`check_expr`] and [`check_body`] answer the code of a tree in a scope, with its type for an expression, exactly where
//! no rule is broken in it, and else the first broken rule with its place. [`check_expr_with`], [`check_body_with`] and
//! [`check_statement_with`] do so where some things are forbidden besides, as in the body of a lambda. What is forbidden
//! where, lambdas as values, templates and whole components are for the layers above; that accepted code is never stuck
//! when it runs is a law elsewhere.
#![tactic(auto)]

mod expressions;
mod heads;
mod locals;
mod statements;
mod whole;

pub use cs_forms::CheckFault;
pub use cs_rules::{Checked, ExprType, Rule};
pub use whole::{
    Stated, check_body, check_body_with, check_expr, check_expr_with, check_statement_with,
};
