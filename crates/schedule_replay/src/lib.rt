//! Schedules: what is done at browsers and on the lines between them and the server, read from JSON, and played.
//!
//! The contract of the reader says, for all bytes, which schedule they spell, or the first thing that is wrong with them, and
//! what every schedule that it gives keeps to. The contract of the player says, for every such schedule, over any stage and any
//! screen that keep to their laws, that its lines are the transcript: a definition by the circuit machine and the browser machine
//! alone, in which each page is that of the stage when the batch was made. So far there is one browser, on a line that loses
//! nothing and keeps the order. That memory is found is not said.
#![tactic(auto)]

mod direct_line;
mod json;
mod reading;
mod replaying;
mod schedule;
mod texts;

pub use reading::read_schedule;
pub use replaying::replay;
pub use schedule::{Schedule, ScheduleFault, Step, UserStep};
