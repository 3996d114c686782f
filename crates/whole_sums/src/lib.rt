//! Sums of whole numbers of either sign over lists, and their laws. Nothing here runs: the crates above cite its
//! definition and its lemmas.
#![tactic(auto)]
