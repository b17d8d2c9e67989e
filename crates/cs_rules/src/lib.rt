//! The rules of C# code: what an expression and the statements of a body come to in a scope.
//!
//! There are definitions alone here, which the checker and what is above it cite. A tree either is fine, with its code
//! and its type, or breaks a rule at a place: the first in reading order, where an expression breaks a rule itself only
//! if none of its parts breaks one. Nothing here runs.
#![tactic(auto)]

mod callee;
mod checked;
mod rule;

pub use callee::{Called, Callee, Dotted};
pub use checked::{Checked, ExprType};
pub use rule::Rule;
