//! The server's end of a circuit, over any stage: messages in, replies out.
//!
//! The contracts say that a circuit's value stands for a state of the circuit machine of `circuit_meaning`, which keeps the
//! whole history, and that each call is a step of that machine; the value keeps only the batches that are not acknowledged
//! and the outcomes that the browser may still ask for. They do not say that a message arrives, nor that memory is found:
//! a circuit that runs out of it ends.
#![tactic(auto)]

mod ack_done;
mod circuit;
mod laws;
mod messages;
mod parts;
mod queues;
mod rules;

pub use ack_done::AckDone;
pub use circuit::{Circuit, Replies};
pub use laws::{a_run_keeps_the_window_and_the_history, a_run_leaves_no_batch_due};
