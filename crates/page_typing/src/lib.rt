//! Why templates that break no rule are never stuck.
//!
//! The types are those of code. `specs/` says which parts of a template have types, one rule a form: over locals of which types
//! its code has types, which attributes and tags take which values, and where a `break` may stand. The contracts of the laws say:
//! a template without tags of components that breaks no rule comes to parts with types, and what it places keeps to its
//! signatures; a part with types gives items or a fault, where fields, parameters, instances and fragments keep to the types; items
//! without components show a page; so a program of one component without parameters shows a page or ends with a fault, over all
//! fields of its types, and its handlers are never stuck. They don't say so of programs in which components stand in one another,
//! and nothing here runs.
#![tactic(auto)]

mod laws;

pub use laws::{
    accepted_components_alone_come_to_acts, accepted_components_alone_keep_to_their_types,
    accepted_components_alone_show_a_page, accepted_components_alone_show_pages_over_their_fields,
    bodies_stay_fine_where_their_names_mean_the_same,
    code_of_accepted_components_alone_runs_among_its_types,
    expressions_stay_fine_where_their_names_mean_the_same,
    fields_of_accepted_components_alone_begin_with_their_types,
    handlers_with_types_are_never_stuck, items_without_components_show_a_page,
    numbers_of_placed_bodies_rise, spelled_components_are_formed,
    templates_that_break_no_rule_have_types, typed_parts_are_never_stuck,
    typed_templates_are_never_stuck,
};
