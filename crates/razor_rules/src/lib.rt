//! The rules of whole programs: which of them a program of components breaks, and where, and which broken rule comes first.
//!
//! There are definitions and laws alone here, which the checker of programs and what is above it cite. What expressions and
//! statements come to is said by the rules of C# code; here stand the scopes that they are judged in, what is forbidden in
//! templates and lambdas, and the rules of members, tags and files. The contracts of the laws say that a program breaks one rule
//! first, or none, and that no other comes before that. Nothing here runs.
#![tactic(auto)]

mod finding;
mod ground;
mod laws;

pub use finding::Broken;
pub use ground::Ground;
pub use laws::{a_program_breaks_one_rule_first, no_broken_rule_comes_before_the_first};
