//! Prints a component as a text.
//!
//! The contract gives the text, and says what it is for: of a component that some text spells, it spells an equal one, places apart. It
//! does not say that memory is found, nor that the printed text nests no deeper than what can be read. The text is the one that is read:
//! a file of it loses a mark U+FEFF at its head, and each carriage return before a line feed.
#![tactic(auto)]

mod printer;

pub use printer::print_component;
