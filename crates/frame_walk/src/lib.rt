//! The edits that lead from one rendering of an instance to the next, and the ids of its handlers.
//!
//! `walk` pairs the items of two renderings. Its contract says which handlers keep their ids, that the others get the next ones in
//! document order, and that the ids that no handler keeps are disposed; that the edits make of the nodes that show the old items
//! those that show the new ones, and how many they are; and which component items stay, come and go. It asks for fewer than 2^31
//! items in each rendering, and that no element has two attributes of one name. It does not say that memory is found, nor how long
//! it takes.
#![tactic(auto)]

mod going;
mod keeping;
mod laws;
mod naming;
mod numbering;
mod outcome;
mod told;
mod values;
mod walking;

pub use laws::handlers_have_the_ids_of_their_pairs;
pub use outcome::Walked;
pub use walking::walk;
