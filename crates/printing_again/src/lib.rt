//! Laws of the pieces that printed components are cut into: they spell equal parts of a component again, places apart.
//!
//! Each function does nothing: its contract is the law. There are laws of content expressions, of values that are one expression behind
//! an at sign, and of the attributes of tags; nodes and whole components are for the layer above. The expression that a parameter's text
//! spells is that of the text where it stands, which may be another where it stands more deeply.
#![tactic(auto)]

mod laws;

pub use laws::{
    a_printed_attribute_of_an_element_is_spelled_again,
    a_printed_content_expression_is_spelled_again, a_printed_event_is_spelled_again,
    a_printed_value_is_spelled_again, printed_attributes_are_spelled_again,
};
