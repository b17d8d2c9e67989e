//! What is forbidden in code besides what the rules of its names and types say: uses of some locals from outside it, changes of
//! fields, calls of some bodies, and invoked callbacks.
//!
//! There are definitions and their laws here, over the rules of C# code, form by form. An expression that breaks no rule of
//! these breaks a further one by what its own code does, and what stands round it breaks none then. The contracts of the laws say
//! that where nothing is forbidden the rules of C# code alone are meant. Of what runs there is [`Forbidden::nothing`] alone.
#![tactic(auto)]

mod forbidden;
mod laws;

pub use forbidden::{Forbidden, Mark};
pub use laws::{expressions_come_to_what_the_rules_say, statements_come_to_what_the_rules_say};
