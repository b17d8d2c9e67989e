//! The top call, `run`: it takes the words of the command line, files and a sink, does all that the program does, and
//! answers the status with which the process is to end.
//!
//! Its contract says, for every words, and for files and a sink that tell what they hold: with status 0 the lines
//! written say of how many components the program of the named files is, or are the printed page of the fresh rendering of
//! its component, or the frames of that rendering, or the fault that ends it, or the transcript that the named schedule
//! leads to over a component; 1, 2, 3, 4, 5 and 8 come only for their causes, in an order that is settled, and the line of
//! each is written whole; 5 and 6 come only where a count of faults rose. Of objects that tell nothing, as the system's, it
//! says that there is some content for which this holds. It does not say that memory is found, so that 9 may come at any
//! time, nor how often a file is read, nor in which pieces a sink is handed the lines. So far the commands are `check`,
//! over any program, `render` and `frames`, over a program of one component that stands alone, and `replay`, over one file
//! of the first-click form (docs/DEFINITIONS.md).
#![tactic(auto)]

mod asking;
mod checking;
mod command;
mod output;
mod playing;
mod reading;
mod refusal;
mod status;
mod top;
mod writing;

pub use first_click::a_file_spells_one_component;
pub use top::{Finished, run};
