//! Checks whole programs of components against the rules of programs.
//!
//! [`check`] answers the program where none of its components breaks a rule, and else the first broken rule with its file and place:
//! the first file that breaks one, and there the earliest place, and at one place the rule of the smaller number. Its contract says
//! that it does so exactly; it fails besides for want of memory alone. What files spell is for the readers below; what accepted
//! programs do when they run is said elsewhere.
#![tactic(auto)]

mod bodies;
mod components;
mod declarations;
mod elements;
mod fault;
mod ground;
mod heads;
mod methods;
mod names;
mod noting;
mod parameters;
mod programs;
mod statements;
mod tags;
mod templates;
mod values;

pub use cs_rules::Rule;
pub use fault::ProgramFault;
pub use programs::{Program, check};
