//! Text that contracts see as the list of its characters, places in a text, decimal numbers as text, and numbers and
//! texts as bytes.
//!
//! The contracts say which characters a text has after each call, which number a text says and how a number is
//! written, which bytes a number and a text are and what bytes say, exactly and for every argument. They do not say
//! how a text lies in memory, nor that memory is found.
#![tactic(auto)]

mod decimal;
mod laws;
mod oom;
mod place;
mod text;
mod text_bytes;
mod wire_fault;
mod words;

pub use decimal::{read_i32, show_i32};
pub use laws::{numbers_are_read_where_they_stand, texts_are_read_where_they_stand};
pub use oom::Oom;
pub use place::Place;
pub use text::Txt;
pub use text_bytes::{put_text, take_text};
pub use wire_fault::WireFault;
pub use words::{put_u32, put_u64, take_u32, take_u64};
