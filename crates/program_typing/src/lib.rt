//! Why instances of programs of several components are never stuck.
//!
//! A program keeps to its types where its bodies, its fragments and the templates of its components do. The contracts of the laws
//! say: an instance of such a program gives items or a fault, over own fields and parameters of their types; a program that breaks
//! no rule keeps to its own types where each template comes to parts with types, and templates without tags of components do; the
//! tag of a component is that of a component of the program, its attributes fit the types of the parameters, and it supplies values
//! of these types. They don't say that templates come to parts with types in which tags of components have content, or are those of
//! the built-in provider, and nothing here runs.
#![tactic(auto)]

mod laws;

pub use laws::{
    attributes_of_tags_fit_the_types_of_parameters, components_of_tags_have_types,
    instances_of_typed_programs_are_never_stuck, members_of_components_break_no_rule,
    programs_break_no_rule_in_any_component, programs_of_sound_components_keep_to_their_types,
    programs_without_tags_keep_to_their_types, tags_are_of_components_whose_parameters_fit,
    tags_supply_values_of_the_types_of_parameters, tags_without_content_come_to_components,
    templates_without_tags_come_to_parts_with_types,
};
