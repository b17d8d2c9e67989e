//! Tests of the compiler: tables of files, and what comes of them.
#![tactic(auto)]

#[cfg(test)]
mod operations;
