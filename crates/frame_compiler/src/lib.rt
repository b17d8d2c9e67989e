//! Compiles components to programs of operations over code whose names are numbers.
//!
//! [`compile`] answers a program whose templates do, act by act, what those of the components say, with the code of each method,
//! handler and lambda under its number and what each fragment does under its own; or the first broken rule with its file and place.
//! It fails besides for want of memory or of numbers alone. That programs which break none of the other rules draw pages without
//! being stuck, and what runs the operations, are for the layers above; files are read below.
#![tactic(auto)]

mod branches;
mod fault;
mod fragments;
mod laws;
mod loops;
mod nodes;
mod programs;
mod sequences;
mod tags;

pub use cs_rules::Rule;
pub use fault::CompileFault;
pub use laws::compiled_programs_draw_what_templates_say;
pub use programs::compile;
