//! Laws of the texts that components are printed as: each is cut into just the pieces that its parts are meant to be.
//!
//! Each function does nothing: its contract is the law. They hold for content, for code with markup and for whole components that are
//! printable, as `specs/` defines it: code is spelled by tokens that a text can have, names are written with the characters of names,
//! literal text has no `<`, and no quote ends a value too early: of a parameter's text, which begins with no at sign, quotes in the
//! brackets of `@(..)` end none. One more law says of the pieces of any text what printable trees are asked for. The laws don't say that
//! a component that a text spells is printable, nor that the pieces spell the component again.
#![tactic(auto)]

mod laws;

pub use laws::{
    a_printed_component_is_cut_as_meant, pieces_of_a_text_are_sound, printed_code_is_cut_as_meant,
    printed_content_is_cut_as_meant,
};
