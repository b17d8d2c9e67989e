//! What a checker of programs reads off components, before any of their code is checked.
//!
//! The numbers of bodies and templates, the records and the names in scope, the types that arguments and parameters are written
//! with, what parts of templates do besides computing, and how tags are meant. The contract of each call says that its answer is
//! what the rules of programs say; a call fails for want of memory alone, and types that are none are refused as there. Which
//! rules a file breaks isn't asked here.
#![tactic(auto)]

pub mod bodies;
pub mod bound;
pub mod circles;
pub mod deeds;
pub mod forms;
pub mod home;
pub mod leaves;
pub mod locals;
pub mod names;
pub mod numbers;
pub mod records;
pub mod tagged;
pub mod tags;
pub mod written_types;
