//! Why a component by itself that is accepted is never stuck.
//!
//! The contracts of the laws say: a component that its file spells, that breaks no rule of programs, and that stands alone, comes
//! to its parts, and its fresh rendering is a page or the fault that ends it. They join what says which components stand alone to
//! what says which show a page: no tags of components, no parameters. They say nothing of programs of several components, and
//! nothing here runs.
#![tactic(auto)]

mod laws;

pub use laws::{
    components_alone_are_never_stuck, components_alone_come_to_their_parts,
    components_alone_have_no_tags_and_no_parameters, components_alone_show_a_page,
};
