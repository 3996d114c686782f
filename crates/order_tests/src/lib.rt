//! Tests of line orders on problems whose bounds, orders, rules and proofs are known, and on one that is as deep as the
//! limit. Nothing stands on this crate.
#![tactic(auto)]

#[cfg(test)]
mod answers;
#[cfg(test)]
mod bound_tests;
#[cfg(test)]
mod deep_tests;
#[cfg(test)]
mod dual_tests;
#[cfg(test)]
mod known;
#[cfg(test)]
mod least_tests;
#[cfg(test)]
mod problems;
#[cfg(test)]
mod proof_tests;
#[cfg(test)]
mod rule_tests;
#[cfg(test)]
mod search_tests;
#[cfg(test)]
mod searching;
