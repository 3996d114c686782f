//! Tests of graph files. Nothing stands on this crate.
#![tactic(auto)]

#[cfg(test)]
mod reading_tests;
