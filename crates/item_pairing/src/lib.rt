//! Which slots of two renderings pair.
//!
//! `slots` takes the items of a list and of its regions in their order, and `pair` tells for each new slot which old one it pairs
//! with. The contracts say that these are the slots, and exactly the pairs, of the definitions. What edits the pairs need is not
//! said here. A place is found by going over the old slots, so two long lists take long.
#![tactic(auto)]

mod labels;
mod made;
mod pairing;
mod slots;

pub use pairing::{pair, place_at};
pub use slots::{Around, Slot, slots_in};
