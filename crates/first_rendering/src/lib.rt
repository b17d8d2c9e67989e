//! The first rendering of a program of one component: the initial values of its fields, the items of its only instance, and the page
//! that they show.
//!
//! The contracts say what comes of it, exactly: the items, or the page; the fault that ends it; or nothing, where code is stuck.
//! Initial values have 1,000,000 units together, and so have the items. What that is for a compiled program is defined over
//! it, and the laws say what it is for the component that it was compiled from. Parameters, lifecycle methods and component items
//! are not taken: a program that has them is not rendered as it means. That memory is found is not said.
#![tactic(auto)]

mod initial;
mod instance;
mod laws;
mod rendering;

pub use laws::{
    compiled_components_have_their_first_items, compiled_components_have_their_first_pages,
};
pub use rendering::{first_items, first_page};
