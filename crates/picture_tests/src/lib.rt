//! Pictures and posters of a small line graph, each by its own call. Nothing stands on this crate.
#![tactic(auto)]

#[cfg(test)]
mod call_tests;
