//! Reads the text of a Razor file as the one component that it spells.
//!
//! A text is cut into pieces, its nesting is measured, and the pieces that count are read from the left, over a stack of what
//! waits for a part, so that no file needs a deep stack of calls. The contract of `read` says which component is answered and why
//! there is none: the text is too long, it nests too deeply, or it spells nothing. That memory is found is not said.
#![tactic(auto)]

mod attribute;
mod begin;
mod content;
mod csharp;
mod depth;
mod fault;
mod file_text;
mod frame;
mod fronts;
mod go_on;
mod heads;
mod item;
mod labels;
mod laws;
mod mark;
mod names;
mod reader;
mod statement;
mod tokens;
mod unread;
mod whole;

pub use fault::ReadFault;
pub use laws::{
    a_file_spells_one_component, numbers_rise_no_faster_than_pieces,
    places_are_no_further_than_the_text_is_long,
};
pub use reader::read;
