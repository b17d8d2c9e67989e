// Attributes, their values, and the expressions in these.
mod attribute_list;
mod texts;
mod values;

pub use attribute_list::attributes_first;
pub use values::shown_first;
