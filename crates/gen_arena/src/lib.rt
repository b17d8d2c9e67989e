//! An arena: a store of items that gives a handle for each, which finds that item until it is removed, and nothing from
//! then on.
//!
//! The contracts say, for every arena, what each handle finds after each call, which handles were ever given, how many
//! slots are live or retired, and that an arena is full exactly where these are as many as its limit. They do not say
//! which free slot is used next, nor that memory is found where no slot is free.
#![tactic(auto)]

mod arena;
mod full;
mod handle;
mod laws;
mod slot;

pub use arena::Arena;
pub use full::Full;
pub use handle::Handle;
pub use laws::{a_handle_is_given_once, a_removed_handle_stays_dead, a_write_changes_one_item};
