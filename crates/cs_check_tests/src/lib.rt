//! Tests of the checker of C# code over small bodies; no code.
#![tactic(auto)]

#[cfg(test)]
mod forbidden;
#[cfg(test)]
mod nested;
#[cfg(test)]
mod rules;
#[cfg(test)]
mod trees;
