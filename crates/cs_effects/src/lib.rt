//! What the methods of a component do besides computing: whether they change a field, and whether they invoke a callback.
//!
//! [`effects`] says it of each method, in the order of the members, exactly: a method does what its own body does, and
//! what the methods that it runs do, through however many of them. Names stand for locals before members. That a
//! statement is reached when the body runs is not asked, and what a lambda does is none of the body that makes it.
#![tactic(auto)]

mod deed;
mod expressions;
mod locals;
mod marks;
mod members;
mod methods;
mod spreading;
mod statements;

pub use deed::Deed;
pub use expressions::does as expression_does;
pub use methods::effects;
pub use statements::{body as body_does, statement as statement_does};
