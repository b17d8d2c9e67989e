//! Runs C# code over the fields of instances, under a budget of units.
//!
//! The contract of `run_code` says that it gives just what the code means: the value, the fields, the receivers and the units
//! left, or the same fault at the same unit. `try_run` says besides where code is stuck. `eval` and `try_eval`, for code that is to
//! change nothing, say the same of the value and the units, and leave all fields as they are. None says that memory is found, nor
//! what the fields hold where it is not.
#![tactic(auto)]

mod calls;
mod charging;
mod copying;
mod ending;
mod evaluator;
mod exit;
mod expressions;
mod kinds;
mod library;
mod loops;
mod operands;
mod operators;
mod owners;
mod progress;
mod reading;
mod run;
mod sections;
mod statements;
mod store;
mod texts;
mod trial;
mod variables;

pub use cs_meaning::{Fault, Fuel};
pub use owners::Owners;
pub use run::{Locals, Ran, eval, run_code, try_eval, try_run};
