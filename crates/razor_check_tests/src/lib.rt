//! Tests of the checker of programs: tables of files and the first rule that they break.
#![tactic(auto)]

#[cfg(test)]
mod rules;
