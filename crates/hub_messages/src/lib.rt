//! The messages between a circuit and its browser, their bytes, and the two ends that a circuit is made of: the stage,
//! which renders, and the screen, which shows.
//!
//! Encoding gives the bytes that spell a message and decoding the message that bytes spell, exactly: one spelling a
//! message, one message a spelling, and a fault only where there is none. That memory is found is not said.
//!
//! The traits say what each call of a stage and of a screen does to a state, by relations that every implementation
//! names and whose laws it proves: the bytes of the n-th batch turn the tree of a screen that has applied n - 1 batches
//! into the stage's tree, with the counts of that rendering. They do not say what a stage renders.
#![tactic(auto)]

mod answer;
mod bytes;
mod codes;
mod decode;
mod down;
mod encode;
mod fields;
mod hub_fault;
mod laws;
mod outcome;
mod screen;
mod stage;
mod tree;
mod up;

pub use answer::{Asked, Got};
pub use bytes::Bytes;
pub use decode::{decode_down, decode_up};
pub use down::Down;
pub use encode::{encode_down, encode_up};
pub use hub_fault::HubFault;
pub use laws::bytes_spell_one_message;
pub use outcome::{CircuitFault, Outcome, Refusal};
pub use screen::{At, PrintScreen, Screen, ScreenFault};
pub use stage::{Acted, Made, Maker, Stage};
pub use tree::Turns;
pub use up::Up;
