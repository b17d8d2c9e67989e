//! Programs as they run: templates as operations over code whose names are numbers, and what operations draw.
//!
//! The types are plain data. What an operation means is a fold into the acts of templates, which is defined here and cited by
//! what makes operations and by what runs them. Nothing here runs.
#![tactic(auto)]

mod compiled;
mod fragments;
mod operation;
mod parts;

pub use compiled::{Compiled, CompiledComponent, CompiledField, RunScope, Wanted};
pub use fragments::Fragments;
pub use operation::{Operation, OperationSection};
pub use parts::{AttributePart, ContentForm, TagPart, TextPart};
