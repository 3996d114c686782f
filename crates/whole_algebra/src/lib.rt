//! Algebra over whole numbers of either sign: laws of sums, products and signs, identities by normal forms,
//! and rounding. Nothing here runs: the crates above cite its lemmas.
#![tactic(auto)]
