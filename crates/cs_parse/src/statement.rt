// Reads statements.
mod begin;
mod frame;
mod go_on;
mod labels;
mod making;
mod reading;
mod simple;
mod views;
mod words;

pub use reading::body_first;
pub use simple::{change_first, changed, initial};
pub use words::is_name;
