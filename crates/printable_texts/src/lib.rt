//! Laws of what a text spells: it is printable, as the laws of printed texts ask.
//!
//! Each function does nothing: its contract is the law. The pieces that a text is cut into stand as they may, as `specs/` defines it:
//! what a single piece is where it stands, and what may stand behind it. What such pieces spell is printable: attributes, content, code
//! with markup and whole components. So a component that a text spells is printable. The laws don't say what the printed text spells.
#![tactic(auto)]

mod laws;

pub use laws::{
    spelled_attributes_are_printable, spelled_code_is_printable, spelled_content_is_printable,
    the_pieces_of_a_text_stand, what_a_text_spells_is_printable,
    what_standing_pieces_spell_is_printable,
};
