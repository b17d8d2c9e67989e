//! Tests of the effects of methods over a few that run each other; no code.
#![tactic(auto)]

#[cfg(test)]
mod methods;
