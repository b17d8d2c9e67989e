//! Laws of printed content, of printed code with markup and of whole printed components: they spell equal ones again, places apart.
//!
//! Each function does nothing: its contract is the law. The laws are of what some pieces spell and what is printable, as the crate of
//! printed pieces defines it; that all that a text spells is printable they don't say. The expression that a parameter's text spells is
//! that of the text where it stands, which may be another where it stands more deeply; and the printed text may nest too deeply to be read.
#![tactic(auto)]

mod laws;

pub use laws::{
    a_printed_component_is_spelled_again, printed_code_is_spelled_again,
    printed_content_is_spelled_again,
};
