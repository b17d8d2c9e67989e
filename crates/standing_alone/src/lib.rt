//! Which components can be rendered by themselves, with no other component and no instance but one.
//!
//! The contract says which these are, exactly: those that have no parameters, no lifecycle methods and nothing to dispose, and no
//! tags of components in their template. It does not say that a component breaks no rule.
#![tactic(auto)]

mod alone;
mod tags;

pub use alone::stands_alone;
