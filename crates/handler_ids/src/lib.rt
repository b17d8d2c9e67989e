//! Handler ids: the numbers under which a browser names the handlers of the pages that it was sent.
//!
//! The contracts say, for every history of ids that the value stands for, which id a handler value gets, what an id
//! is, and what a batch that disposes an id and a number that is released make of the history. They do not say who asks
//! for ids, nor that memory is found.
#![tactic(auto)]

mod entry;
mod found;
mod give_fault;
mod handler_value;
mod handlers;
mod laws;

pub use found::Found;
pub use give_fault::GiveFault;
pub use handler_value::HandlerValue;
pub use handlers::Handlers;
pub use laws::{an_id_is_what_its_history_says, nothing_leaves_the_history};
