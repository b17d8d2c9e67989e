//! Laws of the expression that the text of an attribute spells where it stands, if it spells one.
//!
//! Each function does nothing: its contract is the law. Of each text, wherever it begins and whatever is open round it, it is known
//! which expression it spells or that it spells none, and there is no second answer. The laws don't say that a text spells the same
//! wherever it stands: where more is open round it, it may nest too deep.
#![tactic(auto)]

mod laws;

pub use laws::{a_text_spells_no_second_expression, each_text_spells_one_expression_or_none};
