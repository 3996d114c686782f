//! Lists in the order of a comparison, and that a list which was sorted by a total one is that list. Nothing here runs:
//! the crates above cite its definition and its lemmas.
#![tactic(auto)]
