//! The browser's end of a circuit, over any screen.
//!
//! The contracts say that a client stands for a browser of `circuit_meaning`: each call is that machine's step, with
//! the machine's answer, and the bytes that it gives spell the machine's messages in order. They do not say that these
//! bytes arrive, nor that memory is found; where it is not, the client stays as it was.
#![tactic(auto)]

mod client;
mod events;
mod sending;

pub use client::Client;
pub use sending::Ups;
