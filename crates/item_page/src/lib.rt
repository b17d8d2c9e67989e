//! The page that the items of a rendering show: regions are flattened, attributes and handlers stand by their names, and each
//! handler has an id by its place among the handlers of the page, in the order of the document.
//!
//! The contract says which nodes these are, exactly, and that there are none where an item stands for a component, which
//! shows nothing by itself. It does not say that memory is found; 2^64 handlers count as want of it.
#![tactic(auto)]

mod dressing;
mod showing;

pub use showing::page_of;
