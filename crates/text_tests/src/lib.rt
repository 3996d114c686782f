//! Tests of the crates that write a certificate's text and read it: lines, proofs and whole certificates. Nothing stands on
//! this crate.
#![tactic(auto)]

#[cfg(test)]
mod certificate_tests;
#[cfg(test)]
mod line_tests;
#[cfg(test)]
mod proof_tests;
