//! The edits that bring the slots of one list of siblings to their places.
//!
//! From the places of the pairs `arrange` gives edits that take out the old slots without a pair, put in the new ones, and move
//! the others, all at once, by one permutation. The contract says what they make of any nodes, by the meaning of edits, and how
//! many of each kind there are, exactly. It says nothing of which slots pair, nor of what is within a slot.
#![tactic(auto)]

mod arranging;
mod order;

pub use arranging::arrange;
