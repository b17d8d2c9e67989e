//! Why C# code that breaks no rule is never stuck.
//!
//! The rules say what code and which type a tree comes to in a scope. The contracts of the laws say that the code has the type, by
//! the typing of code, wherever the scope says what the types say; and so that it is never stuck. A body is accepted where it
//! breaks no rule, no jump leaves it, and its end can't be reached where it has a result. Nothing here runs.
#![tactic(auto)]

mod laws;

pub use laws::{
    accepted_bodies_are_never_stuck, accepted_bodies_keep_to_their_signatures,
    accepted_expressions_are_never_stuck, accepted_expressions_have_their_types,
    no_jump_leaves_a_spelled_body, programs_stay_accepted_among_other_instances,
};
