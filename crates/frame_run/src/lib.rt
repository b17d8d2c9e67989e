//! Draws instances of a program: one rendering gives the items that the operations of its component make.
//!
//! The contracts of `frames` and `try_frames` say that they give just what the operations draw, with the units left behind it, or
//! the same fault at the same unit; `try_frames` says besides where a rendering is stuck. Neither says that memory is found. The
//! fields of all instances are as they were.
#![tactic(auto)]

mod attributes;
mod charging;
mod children;
mod contents;
mod copying;
mod counting;
mod elements;
mod evaluating;
mod exit;
mod keys;
mod kinds;
mod nodes;
mod progress;
mod run;
mod sections;
mod tags;
mod texts;
mod turns;

pub use cs_eval::{Fuel, Owners};
pub use run::{frames, try_frames};
